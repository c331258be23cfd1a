//! Operators and built-in functions on registers. No result is a mask; it stands with the scalar so that two tests tell
//! where a result goes, and no table of jumps.
ghost use Rattle.std.specs.Prelude.{◌≡◌, ◌<◌, ◌≤◌, map, length};
ghost use Rattle.std.specs.Simd.Lanes.{zip2};
ghost use Rattle.lane_values.specs.Lanes.{FitsLane, unary_lane, binary_lane, builtin_lane, zip3};
ghost use Rattle.lane_code.specs.Registers.{written, lanes_of, bits_in};
ghost use Rattle.lane_code.specs.declared.step.Bank.TheVariants.{Narrow, Wide, Scalar};
ghost use Rattle.lane_machine.specs.State.{IsIn, FitsBank};

use crate::operands::Output;
use crate::registers::Registers;
use lane_code::{Bank, Reg};
use lane_kernels::{
    Tally, binary32, binary64, builtin32, builtin64, put32, put64, unary32, unary64,
};
use std::simd::prelude::*;
use wg_num::{Bin, Fun, IntType, Un};

/// A unary operator on one scalar, as a vector of one lane.
fn one_unary(op: Un, t: IntType, p: u64, tally: &mut Tally) -> u64
    requires { FitsLane 64 t }
    ensures { result ≡ unary_lane 64 op t p }
{
    unary64(op, t, Simd::<u64, 1>::splat(p), tally).to_array()[0]
}

fn one_binary(op: Bin, t: IntType, p: u64, q: u64, tally: &mut Tally) -> u64
    requires { FitsLane 64 t }
    ensures { result ≡ binary_lane 64 op t p q }
{
    let left = Simd::<u64, 1>::splat(p);
    let right = Simd::<u64, 1>::splat(q);
    binary64(op, t, left, right, tally).to_array()[0]
}

fn one_builtin(f: Fun, t: IntType, p: u64, q: u64, s: u64, tally: &mut Tally) -> u64
    requires { FitsLane 64 t }
    ensures { result ≡ builtin_lane 64 f t p q s }
{
    let first = Simd::<u64, 1>::splat(p);
    let second = Simd::<u64, 1>::splat(q);
    let third = Simd::<u64, 1>::splat(s);
    builtin64(f, t, first, second, third, tally).to_array()[0]
}

#[inline(always)]
pub(crate) fn unary_narrow<const W: usize>(
    r: &mut Registers<W>,
    op: Un,
    out: Output,
    a: Reg,
    tally: &mut Tally,
)
    requires lanes { W ≤ 64 }
    requires fits { FitsLane 32 out.of }
    requires bank { out.to.bank ≡ Narrow }
    requires beside_a { a.bank ≡ Narrow }
    requires to { out.to.number < length r.old.plain.narrow }
    requires a { a.number < length r.old.plain.narrow }
    requires mask { out.mask.number < length r.old.plain.masks }
    ensures written { r.new.plain ≡
        written r.old.plain out.to out.mask (map (unary_lane (bits_in out.to.bank) op out.of)
        (lanes_of r.old.plain a)) }
    ensures room { r.new.room ≡ r.old.room }
{
    let new = unary32(op, out.of, r.narrow[a.number as usize], tally);
    put32(
        &mut r.narrow[out.to.number as usize],
        r.masks[out.mask.number as usize],
        new,
    );
}

fn unary_wide<const W: usize>(r: &mut Registers<W>, op: Un, out: Output, a: Reg, tally: &mut Tally)
    requires lanes { W ≤ 64 }
    requires fits { FitsLane 64 out.of }
    requires bank { out.to.bank ≡ Wide }
    requires beside_a { a.bank ≡ Wide }
    requires to { out.to.number < length r.old.plain.wide }
    requires a { a.number < length r.old.plain.wide }
    requires mask { out.mask.number < length r.old.plain.masks }
    ensures written { r.new.plain ≡
        written r.old.plain out.to out.mask (map (unary_lane (bits_in out.to.bank) op out.of)
        (lanes_of r.old.plain a)) }
    ensures room { r.new.room ≡ r.old.room }
{
    let new = unary64(op, out.of, r.wide[a.number as usize], tally);
    put64(
        &mut r.wide[out.to.number as usize],
        r.masks[out.mask.number as usize],
        new,
    );
}

fn unary_scalar<const W: usize>(
    r: &mut Registers<W>,
    op: Un,
    out: Output,
    a: Reg,
    tally: &mut Tally,
)
    requires fits { FitsLane 64 out.of }
    requires bank { out.to.bank ≡ Scalar }
    requires beside_a { a.bank ≡ Scalar }
    requires to { out.to.number < length r.old.plain.scalars }
    requires a { a.number < length r.old.plain.scalars }
    ensures written { r.new.plain ≡
        written r.old.plain out.to out.mask (map (unary_lane (bits_in out.to.bank) op out.of)
        (lanes_of r.old.plain a)) }
    ensures room { r.new.room ≡ r.old.room }
{
    r.scalars[out.to.number as usize] = one_unary(op, out.of, r.scalars[a.number as usize], tally);
}

/// The step on lanes or on a scalar, by the bank of its result.
pub(crate) fn unary_step<const W: usize>(
    r: &mut Registers<W>,
    op: Un,
    out: Output,
    a: Reg,
    tally: &mut Tally,
)
    requires lanes { W ≤ 64 }
    requires fits { FitsBank out.of out.to.bank }
    requires beside_a { a.bank ≡ out.to.bank }
    requires to { IsIn r.old.plain out.to }
    requires a { IsIn r.old.plain a }
    requires mask { out.mask.number < length r.old.plain.masks }
    ensures written { r.new.plain ≡
        written r.old.plain out.to out.mask (map (unary_lane (bits_in out.to.bank) op out.of)
        (lanes_of r.old.plain a)) }
    ensures room { r.new.room ≡ r.old.room }
{
    match out.to.bank {
        Bank::Narrow => unary_narrow(r, op, out, a, tally),
        Bank::Wide => unary_wide(r, op, out, a, tally),
        Bank::Scalar | Bank::Mask => unary_scalar(r, op, out, a, tally),
    }
}

#[inline(always)]
pub(crate) fn binary_narrow<const W: usize>(
    r: &mut Registers<W>,
    op: Bin,
    out: Output,
    a: Reg,
    b: Reg,
    tally: &mut Tally,
)
    requires lanes { W ≤ 64 }
    requires fits { FitsLane 32 out.of }
    requires bank { out.to.bank ≡ Narrow }
    requires beside_a { a.bank ≡ Narrow }
    requires beside_b { b.bank ≡ Narrow }
    requires to { out.to.number < length r.old.plain.narrow }
    requires a { a.number < length r.old.plain.narrow }
    requires b { b.number < length r.old.plain.narrow }
    requires mask { out.mask.number < length r.old.plain.masks }
    ensures written { r.new.plain ≡
        written r.old.plain out.to out.mask (zip2 (binary_lane (bits_in out.to.bank) op out.of)
        (lanes_of r.old.plain a) (lanes_of r.old.plain b)) }
    ensures room { r.new.room ≡ r.old.room }
{
    let new = binary32(
        op,
        out.of,
        r.narrow[a.number as usize],
        r.narrow[b.number as usize],
        tally,
    );
    put32(
        &mut r.narrow[out.to.number as usize],
        r.masks[out.mask.number as usize],
        new,
    );
}

fn binary_wide<const W: usize>(
    r: &mut Registers<W>,
    op: Bin,
    out: Output,
    a: Reg,
    b: Reg,
    tally: &mut Tally,
)
    requires lanes { W ≤ 64 }
    requires fits { FitsLane 64 out.of }
    requires bank { out.to.bank ≡ Wide }
    requires beside_a { a.bank ≡ Wide }
    requires beside_b { b.bank ≡ Wide }
    requires to { out.to.number < length r.old.plain.wide }
    requires a { a.number < length r.old.plain.wide }
    requires b { b.number < length r.old.plain.wide }
    requires mask { out.mask.number < length r.old.plain.masks }
    ensures written { r.new.plain ≡
        written r.old.plain out.to out.mask (zip2 (binary_lane (bits_in out.to.bank) op out.of)
        (lanes_of r.old.plain a) (lanes_of r.old.plain b)) }
    ensures room { r.new.room ≡ r.old.room }
{
    let new = binary64(
        op,
        out.of,
        r.wide[a.number as usize],
        r.wide[b.number as usize],
        tally,
    );
    put64(
        &mut r.wide[out.to.number as usize],
        r.masks[out.mask.number as usize],
        new,
    );
}

fn binary_scalar<const W: usize>(
    r: &mut Registers<W>,
    op: Bin,
    out: Output,
    a: Reg,
    b: Reg,
    tally: &mut Tally,
)
    requires fits { FitsLane 64 out.of }
    requires bank { out.to.bank ≡ Scalar }
    requires beside_a { a.bank ≡ Scalar }
    requires beside_b { b.bank ≡ Scalar }
    requires to { out.to.number < length r.old.plain.scalars }
    requires a { a.number < length r.old.plain.scalars }
    requires b { b.number < length r.old.plain.scalars }
    ensures written { r.new.plain ≡
        written r.old.plain out.to out.mask (zip2 (binary_lane (bits_in out.to.bank) op out.of)
        (lanes_of r.old.plain a) (lanes_of r.old.plain b)) }
    ensures room { r.new.room ≡ r.old.room }
{
    r.scalars[out.to.number as usize] = one_binary(
        op,
        out.of,
        r.scalars[a.number as usize],
        r.scalars[b.number as usize],
        tally,
    );
}

/// The step on lanes or on a scalar, by the bank of its result.
pub(crate) fn binary_step<const W: usize>(
    r: &mut Registers<W>,
    op: Bin,
    out: Output,
    a: Reg,
    b: Reg,
    tally: &mut Tally,
)
    requires lanes { W ≤ 64 }
    requires fits { FitsBank out.of out.to.bank }
    requires beside_a { a.bank ≡ out.to.bank }
    requires beside_b { b.bank ≡ out.to.bank }
    requires to { IsIn r.old.plain out.to }
    requires a { IsIn r.old.plain a }
    requires b { IsIn r.old.plain b }
    requires mask { out.mask.number < length r.old.plain.masks }
    ensures written { r.new.plain ≡
        written r.old.plain out.to out.mask (zip2 (binary_lane (bits_in out.to.bank) op out.of)
        (lanes_of r.old.plain a) (lanes_of r.old.plain b)) }
    ensures room { r.new.room ≡ r.old.room }
{
    match out.to.bank {
        Bank::Narrow => binary_narrow(r, op, out, a, b, tally),
        Bank::Wide => binary_wide(r, op, out, a, b, tally),
        Bank::Scalar | Bank::Mask => binary_scalar(r, op, out, a, b, tally),
    }
}

#[inline(always)]
pub(crate) fn builtin_narrow<const W: usize>(
    r: &mut Registers<W>,
    f: Fun,
    out: Output,
    a: Reg,
    b: Reg,
    c: Reg,
    tally: &mut Tally,
)
    requires lanes { W ≤ 64 }
    requires fits { FitsLane 32 out.of }
    requires bank { out.to.bank ≡ Narrow }
    requires beside_a { a.bank ≡ Narrow }
    requires beside_b { b.bank ≡ Narrow }
    requires beside_c { c.bank ≡ Narrow }
    requires to { out.to.number < length r.old.plain.narrow }
    requires a { a.number < length r.old.plain.narrow }
    requires b { b.number < length r.old.plain.narrow }
    requires c { c.number < length r.old.plain.narrow }
    requires mask { out.mask.number < length r.old.plain.masks }
    ensures written { r.new.plain ≡
        written r.old.plain out.to out.mask (zip3 (builtin_lane (bits_in out.to.bank) f out.of)
        (lanes_of r.old.plain a) (lanes_of r.old.plain b) (lanes_of r.old.plain c)) }
    ensures room { r.new.room ≡ r.old.room }
{
    let new = builtin32(
        f,
        out.of,
        r.narrow[a.number as usize],
        r.narrow[b.number as usize],
        r.narrow[c.number as usize],
        tally,
    );
    put32(
        &mut r.narrow[out.to.number as usize],
        r.masks[out.mask.number as usize],
        new,
    );
}

fn builtin_wide<const W: usize>(
    r: &mut Registers<W>,
    f: Fun,
    out: Output,
    a: Reg,
    b: Reg,
    c: Reg,
    tally: &mut Tally,
)
    requires lanes { W ≤ 64 }
    requires fits { FitsLane 64 out.of }
    requires bank { out.to.bank ≡ Wide }
    requires beside_a { a.bank ≡ Wide }
    requires beside_b { b.bank ≡ Wide }
    requires beside_c { c.bank ≡ Wide }
    requires to { out.to.number < length r.old.plain.wide }
    requires a { a.number < length r.old.plain.wide }
    requires b { b.number < length r.old.plain.wide }
    requires c { c.number < length r.old.plain.wide }
    requires mask { out.mask.number < length r.old.plain.masks }
    ensures written { r.new.plain ≡
        written r.old.plain out.to out.mask (zip3 (builtin_lane (bits_in out.to.bank) f out.of)
        (lanes_of r.old.plain a) (lanes_of r.old.plain b) (lanes_of r.old.plain c)) }
    ensures room { r.new.room ≡ r.old.room }
{
    let new = builtin64(
        f,
        out.of,
        r.wide[a.number as usize],
        r.wide[b.number as usize],
        r.wide[c.number as usize],
        tally,
    );
    put64(
        &mut r.wide[out.to.number as usize],
        r.masks[out.mask.number as usize],
        new,
    );
}

fn builtin_scalar<const W: usize>(
    r: &mut Registers<W>,
    f: Fun,
    out: Output,
    a: Reg,
    b: Reg,
    c: Reg,
    tally: &mut Tally,
)
    requires fits { FitsLane 64 out.of }
    requires bank { out.to.bank ≡ Scalar }
    requires beside_a { a.bank ≡ Scalar }
    requires beside_b { b.bank ≡ Scalar }
    requires beside_c { c.bank ≡ Scalar }
    requires to { out.to.number < length r.old.plain.scalars }
    requires a { a.number < length r.old.plain.scalars }
    requires b { b.number < length r.old.plain.scalars }
    requires c { c.number < length r.old.plain.scalars }
    ensures written { r.new.plain ≡
        written r.old.plain out.to out.mask (zip3 (builtin_lane (bits_in out.to.bank) f out.of)
        (lanes_of r.old.plain a) (lanes_of r.old.plain b) (lanes_of r.old.plain c)) }
    ensures room { r.new.room ≡ r.old.room }
{
    r.scalars[out.to.number as usize] = one_builtin(
        f,
        out.of,
        r.scalars[a.number as usize],
        r.scalars[b.number as usize],
        r.scalars[c.number as usize],
        tally,
    );
}

/// The step on lanes or on a scalar, by the bank of its result.
pub(crate) fn builtin_step<const W: usize>(
    r: &mut Registers<W>,
    f: Fun,
    out: Output,
    a: Reg,
    b: Reg,
    c: Reg,
    tally: &mut Tally,
)
    requires lanes { W ≤ 64 }
    requires fits { FitsBank out.of out.to.bank }
    requires beside_a { a.bank ≡ out.to.bank }
    requires beside_b { b.bank ≡ out.to.bank }
    requires beside_c { c.bank ≡ out.to.bank }
    requires to { IsIn r.old.plain out.to }
    requires a { IsIn r.old.plain a }
    requires b { IsIn r.old.plain b }
    requires c { IsIn r.old.plain c }
    requires mask { out.mask.number < length r.old.plain.masks }
    ensures written { r.new.plain ≡
        written r.old.plain out.to out.mask (zip3 (builtin_lane (bits_in out.to.bank) f out.of)
        (lanes_of r.old.plain a) (lanes_of r.old.plain b) (lanes_of r.old.plain c)) }
    ensures room { r.new.room ≡ r.old.room }
{
    match out.to.bank {
        Bank::Narrow => builtin_narrow(r, f, out, a, b, c, tally),
        Bank::Wide => builtin_wide(r, f, out, a, b, c, tally),
        Bank::Scalar | Bank::Mask => builtin_scalar(r, f, out, a, b, c, tally),
    }
}
