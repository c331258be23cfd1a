//! Masks: tests of lanes, and masks of masks.
ghost use Rattle.std.specs.Prelude.{◌≡◌, ◌≢◌, ◌<◌, ◌≤◌, ◌&&◌, ◌||◌, not, nat_eq, length};
ghost use Rattle.std.specs.Simd.Lanes.{zip2};
ghost use Rattle.lane_code.specs.Registers.{with_mask, mask_of, lanes_of};
ghost use Rattle.lane_code.specs.declared.step.Bank.TheVariants.{Mask, Scalar, Wide};
ghost use Rattle.lane_machine.specs.State.{IsIn};

use crate::registers::Registers;
use lane_code::{Bank, Reg};
use lane_kernels::{bytes_of, nonzero32, nonzero64, truths_of};
use std::simd::prelude::*;

fn both<const W: usize>(a: [bool; W], b: [bool; W]) -> [bool; W]
    ensures { result ≡ zip2 (λ x y. x && y) a.entry b.entry }
{
    truths_of(bytes_of(a) & bytes_of(b))
}

fn either<const W: usize>(a: [bool; W], b: [bool; W]) -> [bool; W]
    ensures { result ≡ zip2 (λ x y. x || y) a.entry b.entry }
{
    truths_of(bytes_of(a) | bytes_of(b))
}

fn less<const W: usize>(a: [bool; W], b: [bool; W]) -> [bool; W]
    ensures { result ≡ zip2 (λ x y. x && not y) a.entry b.entry }
{
    truths_of(bytes_of(a) & !bytes_of(b))
}

/// The lanes of both masks, by a call: beside a comparison of lanes the compiler would take a mask of eight lanes
/// apart, bit by bit.
#[inline(never)]
fn both_apart<const W: usize>(a: [bool; W], b: [bool; W]) -> [bool; W]
    ensures { result ≡ zip2 (λ x y. x && y) a.entry b.entry }
{
    both(a, b)
}

/// The lanes of the mask that are not 0.
fn active32<const W: usize>(mask: [bool; W], a: Simd<u32, W>) -> [bool; W]
    requires { W ≤ 64 }
    ensures { result ≡ zip2 (λ on x. on && not (nat_eq x 0)) mask.entry a.entry }
{
    if W <= 8 {
        return both_apart(mask, nonzero32(a));
    }
    both(mask, nonzero32(a))
}

fn active64<const W: usize>(mask: [bool; W], a: Simd<u64, W>) -> [bool; W]
    requires { W ≤ 64 }
    ensures { result ≡ zip2 (λ on x. on && not (nat_eq x 0)) mask.entry a.entry }
{
    both(mask, nonzero64(a))
}

/// The lanes of both masks.
#[inline(always)]
pub(crate) fn and_step<const W: usize>(r: &mut Registers<W>, to: Reg, a: Reg, b: Reg)
    requires lanes { W ≤ 64 }
    requires to { to.number < length r.old.plain.masks }
    requires a { a.number < length r.old.plain.masks }
    requires b { b.number < length r.old.plain.masks }
    ensures written { r.new.plain ≡
        with_mask r.old.plain to (zip2 (λ x y. x && y) (mask_of r.old.plain a) (mask_of r.old.plain b)) }
    ensures room { r.new.room ≡ r.old.room }
{
    r.masks[to.number as usize] = both(r.masks[a.number as usize], r.masks[b.number as usize]);
}

/// The lanes of either mask.
#[inline(always)]
pub(crate) fn or_step<const W: usize>(r: &mut Registers<W>, to: Reg, a: Reg, b: Reg)
    requires lanes { W ≤ 64 }
    requires to { to.number < length r.old.plain.masks }
    requires a { a.number < length r.old.plain.masks }
    requires b { b.number < length r.old.plain.masks }
    ensures written { r.new.plain ≡
        with_mask r.old.plain to (zip2 (λ x y. x || y) (mask_of r.old.plain a) (mask_of r.old.plain b)) }
    ensures room { r.new.room ≡ r.old.room }
{
    r.masks[to.number as usize] = either(r.masks[a.number as usize], r.masks[b.number as usize]);
}

/// The lanes of the one mask that are not in the other.
#[inline(always)]
pub(crate) fn less_step<const W: usize>(r: &mut Registers<W>, to: Reg, a: Reg, b: Reg)
    requires lanes { W ≤ 64 }
    requires to { to.number < length r.old.plain.masks }
    requires a { a.number < length r.old.plain.masks }
    requires b { b.number < length r.old.plain.masks }
    ensures written { r.new.plain ≡
        with_mask r.old.plain to (zip2 (λ x y. x && not y) (mask_of r.old.plain a) (mask_of r.old.plain b)) }
    ensures room { r.new.room ≡ r.old.room }
{
    r.masks[to.number as usize] = less(r.masks[a.number as usize], r.masks[b.number as usize]);
}

/// The same of wide lanes, out of line, so that the mask is read where narrow lanes are tested.
#[inline(never)]
fn test_wide<const W: usize>(r: &mut Registers<W>, to: Reg, from: Reg, mask: Reg)
    requires lanes { W ≤ 64 }
    requires to { to.number < length r.old.plain.masks }
    requires from { from.number < length r.old.plain.wide }
    requires bank { from.bank ≡ Wide }
    requires mask { mask.number < length r.old.plain.masks }
    ensures written { r.new.plain ≡
        with_mask r.old.plain to (zip2 (λ on x. on && not (nat_eq x 0)) (mask_of r.old.plain mask)
        (lanes_of r.old.plain from)) }
    ensures room { r.new.room ≡ r.old.room }
{
    r.masks[to.number as usize] = active64(
        r.masks[mask.number as usize],
        r.wide[from.number as usize],
    );
}

/// The active lanes whose value is not 0.
#[inline(always)]
pub(crate) fn test_step<const W: usize>(r: &mut Registers<W>, to: Reg, from: Reg, mask: Reg)
    requires lanes { W ≤ 64 }
    requires to { to.number < length r.old.plain.masks }
    requires from { IsIn r.old.plain from }
    requires bank { from.bank ≢ Mask }
    requires number { from.bank ≢ Scalar }
    requires mask { mask.number < length r.old.plain.masks }
    ensures written { r.new.plain ≡
        with_mask r.old.plain to (zip2 (λ on x. on && not (nat_eq x 0)) (mask_of r.old.plain mask)
        (lanes_of r.old.plain from)) }
    ensures room { r.new.room ≡ r.old.room }
{
    match from.bank {
        Bank::Narrow => {
            r.masks[to.number as usize] = active32(
                r.masks[mask.number as usize],
                r.narrow[from.number as usize],
            );
        }
        Bank::Wide => test_wide(r, to, from, mask),
        Bank::Scalar | Bank::Mask => {}
    }
}
