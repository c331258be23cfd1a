//! Work-item functions and kernel arguments, in lanes.
ghost use Rattle.std.specs.Prelude.{◌≡◌, ◌≢◌, ◌<◌, ◌≤◌, ◌+◌, ◌*◌, ◌^◌, length, replicate};
ghost use Rattle.std.specs.Prelude.{ℕ, List, true, false, slice_get, slice_index_or, IfSome, if◌then◌else◌};
ghost use Rattle.std.specs.Simd.Lanes.{sel_l};
ghost use Rattle.wg_num.specs.declared.types.IntType.TheVariants.{Uint};
ghost use Rattle.wg_num.specs.Wrap.{value_of};
ghost use Rattle.cl_model.specs.Sizes.{answer_of, group_size, local_id, size_at};
ghost use Rattle.cl_model.specs.View.{launch_of};
ghost use Rattle.cl_model.specs.Meaning.{argument_value};
ghost use Rattle.lane_values.specs.Lanes.{lane};
ghost use Rattle.lane_code.specs.Registers.{written, lanes_of, bits_in, lane_count};
ghost use Rattle.lane_code.specs.Acts.{answers};
ghost use Rattle.lane_code.specs.declared.step.Bank.TheVariants.{Mask};
ghost use Rattle.lane_machine.specs.Sizes.{HasSizes};
ghost use Rattle.lane_machine.specs.Spots.{IsSpot};
ghost use Rattle.lane_machine.specs.State.{IsIn, FitsAsk};

use crate::queries::{Place, Spot, answer, grows, is_row, spot_in, spot_of};
use crate::registers::Registers;
use cl_model::{Bound, Launch, Query};
use lane_code::{Bank, Reg};
use lane_kernels::{lane_of32, lane_of64, put32, put64, shared_lane};
use std::simd::prelude::*;

/// What a work-item function gives an item, as a lane.
fn answer32(launch: &Launch, item: u64, what: Query, d: u64) -> u32
    requires { HasSizes (launch_of launch.now) }
    ensures { result ≡ lane 32 (answer_of (launch_of launch.now) item what (value_of Uint d)) }
{
    lane_of32(answer(
        launch,
        spot_of(launch, item),
        what,
        (d % 0x1_0000_0000) as u32,
    ) as i128)
}

fn answer64(launch: &Launch, item: u64, what: Query, d: u64) -> u64
    requires { HasSizes (launch_of launch.now) }
    ensures { result ≡ lane 64 (answer_of (launch_of launch.now) item what (value_of Uint d)) }
{
    lane_of64(answer(
        launch,
        spot_of(launch, item),
        what,
        (d % 0x1_0000_0000) as u32,
    ) as i128)
}

/// What it gives the items of a vector, the first of which has this number in the launch.
fn answers32<const W: usize>(
    launch: &Launch,
    item: u64,
    what: Query,
    dims: Simd<u32, W>,
) -> Simd<u32, W>
    requires lanes { W ≤ 64 }
    requires sizes { HasSizes (launch_of launch.now) }
    requires item { item < 2 ^ 32 }
    ensures { result ≡ answers 32 (launch_of launch.now) item what dims.entry }
{
    let places = dims.to_array();
    let mut lanes = [0u32; W];
    for i in 0..W {
        lanes[i] = answer32(launch, item + i as u64, what, places[i] as u64);
    }
    Simd::from_array(lanes)
}

/// One more than the number of the highest active lane, and 0 where none is active.
fn reach<const W: usize>(mask: [bool; W]) -> u64
    ensures within { result ≤ W }
    ensures off { (k : ℕ) → result ≤ k → slice_index_or mask.entry k false ≡ false }
    ensures highest { (k : ℕ) → result ≡ k + 1 → slice_index_or mask.entry k false ≡ true }
{
    let mut count = 0;
    for i in 0..W {
        if mask[i] {
            count = i as u64 + 1;
        }
    }
    count
}

fn ahead(growing: bool, i: u64) -> u64
    ensures { result ≡ (if growing then i else 0) }
{
    if growing { i } else { 0 }
}

/// What a work-item function gives the items of a vector for one argument, counted on from the first: right in the
/// lanes whose items stand in the first one's row.
fn counted64<const W: usize>(launch: &Launch, item: Spot, what: Query, d: u32) -> Simd<u64, W>
    requires lanes { W ≤ 64 }
    requires sizes { HasSizes (launch_of launch.now) }
    requires spot { IsSpot (launch_of launch.now) item }
    ensures { (k : ℕ) → k < W →
        local_id (launch_of launch.now) item.number 0 + k < size_at (launch_of launch.now).local 0 →
        slice_index_or result k 0 ≡
        slice_index_or (answers 64 (launch_of launch.now) item.number what (replicate W d)) k 0 }
{
    let first = answer(launch, item, what, d);
    let growing = grows(what, d);
    let mut lanes = [0u64; W];
    for i in 0..W {
        lanes[i] = first.wrapping_add(ahead(growing, i as u64));
    }
    Simd::from_array(lanes)
}

/// The same for items anywhere and an argument for each.
fn each64<const W: usize>(launch: &Launch, item: u64, what: Query, places: [u32; W]) -> Simd<u64, W>
    requires lanes { W ≤ 64 }
    requires sizes { HasSizes (launch_of launch.now) }
    requires item { item < 2 ^ 32 }
    ensures { result ≡ answers 64 (launch_of launch.now) item what places.entry }
{
    let mut lanes = [0u64; W];
    for i in 0..W {
        lanes[i] = answer64(launch, item + i as u64, what, places[i] as u64);
    }
    Simd::from_array(lanes)
}

/// What it gives the items of a vector for an argument each, right in the active lanes.
fn answers64<const W: usize>(
    launch: &Launch,
    item: Spot,
    what: Query,
    dims: Simd<u32, W>,
    mask: [bool; W],
) -> Simd<u64, W>
    requires lanes { W ≤ 64 }
    requires sizes { HasSizes (launch_of launch.now) }
    requires spot { IsSpot (launch_of launch.now) item }
    requires item { item.number < 2 ^ 32 }
    ensures { (old : List ℕ) → sel_l mask.entry result old ≡
        sel_l mask.entry (answers 64 (launch_of launch.now) item.number what dims.entry) old }
{
    if is_row(launch, item, reach(mask)) {
        if let Some(d) = shared_lane(dims) {
            return counted64(launch, item, what, d);
        }
    }
    each64(launch, item.number, what, dims.to_array())
}

/// A work-item function in lanes or in a scalar, for the item of the first lane.
#[inline(always)]
fn ask_from<const W: usize>(
    r: &mut Registers<W>,
    what: Query,
    to: Reg,
    dim: Reg,
    mask: Reg,
    launch: &Launch,
    item: Spot,
)
    requires lanes { W ≤ 64 }
    requires fits { FitsAsk to.bank dim.bank }
    requires to { IsIn r.old.plain to }
    requires dim { IsIn r.old.plain dim }
    requires mask { mask.number < length r.old.plain.masks }
    requires sizes { HasSizes (launch_of launch.now) }
    requires spot { IsSpot (launch_of launch.now) item }
    requires item { item.number < 2 ^ 32 }
    ensures written { r.new.plain ≡
        written r.old.plain to mask (answers (bits_in to.bank) (launch_of launch.now) item.number what
        (lanes_of r.old.plain dim)) }
    ensures room { r.new.room ≡ r.old.room }
{
    match to.bank {
        Bank::Narrow => {
            let new = answers32(launch, item.number, what, r.narrow[dim.number as usize]);
            put32(
                &mut r.narrow[to.number as usize],
                r.masks[mask.number as usize],
                new,
            );
        }
        Bank::Wide => {
            let new = answers64(
                launch,
                item,
                what,
                r.narrow[dim.number as usize],
                r.masks[mask.number as usize],
            );
            put64(
                &mut r.wide[to.number as usize],
                r.masks[mask.number as usize],
                new,
            );
        }
        Bank::Scalar | Bank::Mask => {
            let one = answer64(launch, item.number, what, r.scalars[dim.number as usize]);
            r.scalars[to.number as usize] = one;
        }
    }
}

/// A work-item function in lanes or in a scalar, for a first lane at the place.
#[inline(never)]
pub(crate) fn ask_step<const W: usize>(
    r: &mut Registers<W>,
    what: Query,
    to: Reg,
    dim: Reg,
    mask: Reg,
    launch: &Launch,
    place: Place,
)
    requires lanes { W ≤ 64 }
    requires fits { FitsAsk to.bank dim.bank }
    requires to { IsIn r.old.plain to }
    requires dim { IsIn r.old.plain dim }
    requires mask { mask.number < length r.old.plain.masks }
    requires sizes { HasSizes (launch_of launch.now) }
    requires below { place.local < group_size (launch_of launch.now) }
    requires few { place.group * group_size (launch_of launch.now) + place.local < 2 ^ 32 }
    ensures written { r.new.plain ≡
        written r.old.plain to mask (answers (bits_in to.bank) (launch_of launch.now)
        (place.group * group_size (launch_of launch.now) + place.local) what (lanes_of r.old.plain dim)) }
    ensures room { r.new.room ≡ r.old.room }
{
    ask_from(r, what, to, dim, mask, launch, spot_in(launch, place));
}

/// The value that is bound to a parameter, 0 for a pointer.
fn value_bound(args: &Vec<Bound>, number: u32) -> i128
    ensures { result ≡ argument_value (slice_get args.now.items number) }
{
    match args.get(number as usize) {
        Some(Bound::Value(value)) => *value,
        Some(Bound::Buffer(_)) | Some(Bound::Local(_)) | None => 0,
    }
}

/// The value of a kernel parameter in lanes or in a scalar.
#[inline(never)]
pub(crate) fn argument_step<const W: usize>(
    r: &mut Registers<W>,
    number: u32,
    to: Reg,
    mask: Reg,
    args: &Vec<Bound>,
)
    requires lanes { W ≤ 64 }
    requires to { IsIn r.old.plain to }
    requires bank { to.bank ≢ Mask }
    requires mask { mask.number < length r.old.plain.masks }
    ensures written { r.new.plain ≡
        written r.old.plain to mask (replicate (lane_count W to.bank)
        (lane (bits_in to.bank) (argument_value (slice_get args.now.items number)))) }
    ensures room { r.new.room ≡ r.old.room }
{
    let value = value_bound(args, number);
    match to.bank {
        Bank::Narrow => {
            let new = Simd::splat(lane_of32(value));
            put32(
                &mut r.narrow[to.number as usize],
                r.masks[mask.number as usize],
                new,
            );
        }
        Bank::Wide => {
            let new = Simd::splat(lane_of64(value));
            put64(
                &mut r.wide[to.number as usize],
                r.masks[mask.number as usize],
                new,
            );
        }
        Bank::Scalar | Bank::Mask => r.scalars[to.number as usize] = lane_of64(value),
    }
}
