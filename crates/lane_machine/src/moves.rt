//! Constants, copies and conversions of registers, and scalars to lanes and back.
ghost use Rattle.std.specs.Prelude.{◌≡◌, ◌≢◌, ◌<◌, ◌≤◌, ◌%◌, ◌^◌, map, length, replicate};
ghost use Rattle.std.specs.Prelude.{IfSome};
ghost use Rattle.wg_num.specs.Wrap.{bits_of, value_of};
ghost use Rattle.lane_values.specs.Lanes.{FitsLane, lane, convert_lane};
ghost use Rattle.lane_code.specs.Registers.{written, with_lanes, lanes_of, bits_in, lane_count, scalar_of, mask_of};
ghost use Rattle.lane_code.specs.Registers.{lowest};
ghost use Rattle.lane_code.specs.Acts.{first_of};
ghost use Rattle.lane_code.specs.declared.step.Bank.TheVariants.{Narrow, Wide, Mask, Scalar};
ghost use Rattle.lane_machine.specs.State.{IsIn, FitsConvert};

use crate::registers::Registers;
use lane_code::{Bank, Reg};
use lane_kernels::{
    Tally, convert32, convert64, lane_of32, lane_of64, lowest as lowest_lane, narrow, pattern64,
    put32, put64, widen,
};
use std::simd::prelude::*;
use wg_num::IntType;

/// Every lane of a register, or the scalar, is the value.
pub(crate) fn const_step<const W: usize>(r: &mut Registers<W>, to: Reg, number: i128)
    requires to { IsIn r.old.plain to }
    requires bank { to.bank ≢ Mask }
    ensures written { r.new.plain ≡
        with_lanes r.old.plain to (replicate (lane_count W to.bank) (lane (bits_in to.bank) number)) }
    ensures room { r.new.room ≡ r.old.room }
{
    match to.bank {
        Bank::Narrow => r.narrow[to.number as usize] = Simd::splat(lane_of32(number)),
        Bank::Wide => r.wide[to.number as usize] = Simd::splat(lane_of64(number)),
        Bank::Scalar | Bank::Mask => r.scalars[to.number as usize] = lane_of64(number),
    }
}

/// Copies a register into one of the same bank.
#[inline(always)]
pub(crate) fn copy_step<const W: usize>(r: &mut Registers<W>, to: Reg, from: Reg, mask: Reg)
    requires lanes { W ≤ 64 }
    requires to { IsIn r.old.plain to }
    requires from { IsIn r.old.plain from }
    requires beside { from.bank ≡ to.bank }
    requires bank { to.bank ≢ Mask }
    requires mask { mask.number < length r.old.plain.masks }
    ensures written { r.new.plain ≡ written r.old.plain to mask (lanes_of r.old.plain from) }
    ensures room { r.new.room ≡ r.old.room }
{
    match to.bank {
        Bank::Narrow => {
            let new = r.narrow[from.number as usize];
            put32(
                &mut r.narrow[to.number as usize],
                r.masks[mask.number as usize],
                new,
            );
        }
        Bank::Wide => {
            let new = r.wide[from.number as usize];
            put64(
                &mut r.wide[to.number as usize],
                r.masks[mask.number as usize],
                new,
            );
        }
        Bank::Scalar | Bank::Mask => r.scalars[to.number as usize] =
            r.scalars[from.number as usize],
    }
}

/// The scalar into every lane of a register.
#[inline(always)]
pub(crate) fn spread_step<const W: usize>(r: &mut Registers<W>, to: Reg, from: Reg)
    requires to { IsIn r.old.plain to }
    requires from { from.number < length r.old.plain.scalars }
    requires mask { to.bank ≢ Mask }
    requires scalar { to.bank ≢ Scalar }
    ensures written { r.new.plain ≡
        with_lanes r.old.plain to (replicate W (scalar_of r.old.plain from % 2 ^ bits_in to.bank)) }
    ensures room { r.new.room ≡ r.old.room }
{
    let one = r.scalars[from.number as usize];
    match to.bank {
        Bank::Narrow => r.narrow[to.number as usize] = Simd::splat((one % 0x1_0000_0000) as u32),
        Bank::Wide => r.wide[to.number as usize] = Simd::splat(one),
        Bank::Scalar | Bank::Mask => {}
    }
}

/// The lowest lane that is set, as a place.
pub(crate) fn lowest_place<const W: usize>(mask: [bool; W]) -> Option<u32>
    requires { W ≤ 64 }
    ensures same { result ≡ lowest mask.entry }
    ensures below { IfSome result (λ i. i < W) }
{
    lowest_lane(mask)
}

/// The scalar becomes the value of the lowest active lane of a register.
#[inline(always)]
pub(crate) fn first_step<const W: usize>(
    r: &mut Registers<W>,
    to: Reg,
    from: Reg,
    t: IntType,
    mask: Reg,
)
    requires lanes { W ≤ 64 }
    requires to { to.number < length r.old.plain.scalars }
    requires from { IsIn r.old.plain from }
    requires bank { from.bank ≢ Mask }
    requires number { from.bank ≢ Scalar }
    requires mask { mask.number < length r.old.plain.masks }
    ensures written { r.new.plain ≡ first_of r.old.plain to t (lanes_of r.old.plain from)
        (lowest (mask_of r.old.plain mask)) }
    ensures room { r.new.room ≡ r.old.room }
{
    if let Some(place) = lowest_place(r.masks[mask.number as usize]) {
        let lane = match from.bank {
            Bank::Narrow => r.narrow[from.number as usize].to_array()[place as usize] as u64,
            Bank::Wide => r.wide[from.number as usize].to_array()[place as usize],
            Bank::Scalar | Bank::Mask => 0,
        };
        r.scalars[to.number as usize] = pattern64(t, lane);
    }
}

#[inline(always)]
pub(crate) fn convert_narrow<const W: usize>(
    r: &mut Registers<W>,
    to: Reg,
    kind: IntType,
    from: Reg,
    was: IntType,
    mask: Reg,
    tally: &mut Tally,
)
    requires lanes { W ≤ 64 }
    requires fits { FitsConvert kind was Narrow from.bank }
    requires bank { to.bank ≡ Narrow }
    requires to { to.number < length r.old.plain.narrow }
    requires from { IsIn r.old.plain from }
    requires mask { mask.number < length r.old.plain.masks }
    ensures written { r.new.plain ≡
        written r.old.plain to mask (map (convert_lane (bits_in to.bank) kind was) (lanes_of r.old.plain from)) }
    ensures room { r.new.room ≡ r.old.room }
{
    let new = match from.bank {
        Bank::Narrow => convert32(kind, r.narrow[from.number as usize], was, tally),
        Bank::Wide => narrow(kind, r.wide[from.number as usize], was, tally),
        Bank::Scalar | Bank::Mask => unreachable!(),
    };
    put32(
        &mut r.narrow[to.number as usize],
        r.masks[mask.number as usize],
        new,
    );
}

fn convert_wide<const W: usize>(
    r: &mut Registers<W>,
    to: Reg,
    kind: IntType,
    from: Reg,
    was: IntType,
    mask: Reg,
    tally: &mut Tally,
)
    requires lanes { W ≤ 64 }
    requires fits { FitsConvert kind was Wide from.bank }
    requires bank { to.bank ≡ Wide }
    requires to { to.number < length r.old.plain.wide }
    requires from { IsIn r.old.plain from }
    requires mask { mask.number < length r.old.plain.masks }
    ensures written { r.new.plain ≡
        written r.old.plain to mask (map (convert_lane (bits_in to.bank) kind was) (lanes_of r.old.plain from)) }
    ensures room { r.new.room ≡ r.old.room }
{
    let new = match from.bank {
        Bank::Narrow => widen(kind, r.narrow[from.number as usize], was, tally),
        Bank::Wide => convert64(kind, r.wide[from.number as usize], was, tally),
        Bank::Scalar | Bank::Mask => unreachable!(),
    };
    put64(
        &mut r.wide[to.number as usize],
        r.masks[mask.number as usize],
        new,
    );
}

fn one_convert(kind: IntType, p: u64, was: IntType, tally: &mut Tally) -> u64
    requires kind { FitsLane 64 kind }
    requires was { FitsLane 64 was }
    ensures { result ≡ convert_lane 64 kind was p }
{
    convert64(kind, Simd::<u64, 1>::splat(p), was, tally).to_array()[0]
}

/// Converts a register from the type `was` to the type `kind`.
pub(crate) fn convert_step<const W: usize>(
    r: &mut Registers<W>,
    to: Reg,
    kind: IntType,
    from: Reg,
    was: IntType,
    mask: Reg,
    tally: &mut Tally,
)
    requires lanes { W ≤ 64 }
    requires fits { FitsConvert kind was to.bank from.bank }
    requires to { IsIn r.old.plain to }
    requires from { IsIn r.old.plain from }
    requires mask { mask.number < length r.old.plain.masks }
    ensures written { r.new.plain ≡
        written r.old.plain to mask (map (convert_lane (bits_in to.bank) kind was) (lanes_of r.old.plain from)) }
    ensures room { r.new.room ≡ r.old.room }
{
    match to.bank {
        Bank::Narrow => convert_narrow(r, to, kind, from, was, mask, tally),
        Bank::Wide => convert_wide(r, to, kind, from, was, mask, tally),
        Bank::Scalar | Bank::Mask => convert_scalar(r, to, kind, from, was, mask, tally),
    }
}

fn convert_scalar<const W: usize>(
    r: &mut Registers<W>,
    to: Reg,
    kind: IntType,
    from: Reg,
    was: IntType,
    mask: Reg,
    tally: &mut Tally,
)
    requires fits { FitsConvert kind was Scalar from.bank }
    requires bank { to.bank ≡ Scalar }
    requires to { to.number < length r.old.plain.scalars }
    requires from { IsIn r.old.plain from }
    ensures written { r.new.plain ≡
        written r.old.plain to mask (map (convert_lane (bits_in to.bank) kind was) (lanes_of r.old.plain from)) }
    ensures room { r.new.room ≡ r.old.room }
{
    match from.bank {
        Bank::Scalar => {
            let one = r.scalars[from.number as usize];
            r.scalars[to.number as usize] = one_convert(kind, one, was, tally);
        }
        Bank::Narrow | Bank::Wide | Bank::Mask => {}
    }
}
