//! Columns, once slots and votes.
ghost use Rattle.std.specs.Prelude.{◌≡◌, ◌≢◌, ◌<◌, ◌≤◌, ◌%◌, ◌^◌, [], false, map, length};
ghost use Rattle.std.specs.Prelude.{slice_index_or, slice_set};
ghost use Rattle.std.specs.Simd.Lanes.{sel_l};
ghost use Rattle.lane_values.specs.Lanes.{zip3};
ghost use Rattle.lane_code.specs.Registers.{with_lanes, with_mask, with_scalar, lanes_of, mask_of, scalar_of};
ghost use Rattle.lane_code.specs.Groups.{window, with_window};
ghost use Rattle.lane_code.specs.Acts.{column_lanes, column_stored, voted, chosen};
ghost use Rattle.lane_code.specs.declared.step.Bank.TheVariants.{Mask, Scalar};
ghost use Rattle.lane_machine.specs.State.{IsIn};

use crate::group_state::Group;
use crate::registers::Registers;
use crate::windows::{numbers_at, put_active, put_numbers, put_truths, truths_at};
use lane_code::{Bank, Reg};
use lane_kernels::{bytes_of, is_full, truths_of};
use std::simd::prelude::*;

/// The entry value of a once slot.
#[inline(never)]
pub(crate) fn once_get_step<const W: usize>(r: &mut Registers<W>, group: &Group, slot: u32, to: Reg)
    requires slot { slot < length group.now.kept.entries }
    requires to { to.number < length r.old.plain.scalars }
    ensures written { r.new.plain ≡ with_scalar r.old.plain to (slice_index_or group.now.kept.entries slot 0) }
    ensures room { r.new.room ≡ r.old.room }
{
    r.scalars[to.number as usize] = group.entries[slot as usize];
}

/// The exit value of a once slot.
#[inline(never)]
pub(crate) fn once_put_step<const W: usize>(
    r: &Registers<W>,
    group: &mut Group,
    slot: u32,
    from: Reg,
)
    requires slot { slot < length group.old.kept.exits }
    requires from { from.number < length r.now.plain.scalars }
    ensures { group.new ≡ record group.old {
      kept = record group.old.kept { exits = slice_set group.old.kept.exits slot (scalar_of r.now.plain from) };
    } }
{
    group.exits[slot as usize] = r.scalars[from.number as usize];
}

/// The items' answers of the last vote.
#[inline(never)]
pub(crate) fn vote_get_step<const W: usize>(
    r: &mut Registers<W>,
    group: &Group,
    to: Reg,
    first: usize,
)
    requires lanes { W ≤ 64 }
    requires first { first < 2 ^ 32 }
    requires to { to.number < length r.old.plain.masks }
    ensures written { r.new.plain ≡ with_mask r.old.plain to (window false group.now.kept.votes first W) }
    ensures room { r.new.room ≡ r.old.room }
{
    r.masks[to.number as usize] = truths_at(&group.votes, first);
}

/// The items' answers of a vote, where they are active.
#[inline(never)]
pub(crate) fn vote_put_step<const W: usize>(
    r: &Registers<W>,
    group: &mut Group,
    from: Reg,
    mask: Reg,
    first: usize,
)
    requires lanes { W ≤ 64 }
    requires first { first < 2 ^ 32 }
    requires from { from.number < length r.now.plain.masks }
    requires mask { mask.number < length r.now.plain.masks }
    ensures { group.new ≡ record group.old {
      kept = voted group.old.kept first W (mask_of r.now.plain mask)
          (mask_of r.now.plain from);
    } }
{
    let old = truths_at(&group.votes, first);
    let new = chosen_truths(
        r.masks[mask.number as usize],
        r.masks[from.number as usize],
        old,
    );
    put_truths(&mut group.votes, first, new);
}

/// The items' values in a column.
#[inline(never)]
pub(crate) fn column_get_step<const W: usize>(
    r: &mut Registers<W>,
    group: &Group,
    column: u32,
    to: Reg,
    first: usize,
)
    requires lanes { W ≤ 64 }
    requires first { first < 2 ^ 32 }
    requires column { column < length group.now.kept.columns }
    requires to { IsIn r.old.plain to }
    requires mask { to.bank ≢ Mask }
    requires scalar { to.bank ≢ Scalar }
    ensures written { r.new.plain ≡
        with_lanes r.old.plain to (column_lanes to.bank (window 0 (slice_index_or group.now.kept.columns column [])
        first W)) }
    ensures room { r.new.room ≡ r.old.room }
{
    let values = numbers_at(&group.columns[column as usize], first);
    match to.bank {
        Bank::Narrow => r.narrow[to.number as usize] = low_halves(values),
        Bank::Wide => r.wide[to.number as usize] = values,
        Bank::Scalar | Bank::Mask => {}
    }
}

/// A column with the active items' values.
#[inline(never)]
pub(crate) fn column_put_step<const W: usize>(
    r: &Registers<W>,
    group: &mut Group,
    column: u32,
    from: Reg,
    mask: Reg,
    first: usize,
)
    requires lanes { W ≤ 64 }
    requires first { first < 2 ^ 32 }
    requires column { column < length group.old.kept.columns }
    requires from { IsIn r.now.plain from }
    requires bank { from.bank ≢ Mask }
    requires scalar { from.bank ≢ Scalar }
    requires mask { mask.number < length r.now.plain.masks }
    ensures { group.new ≡ record group.old {
      kept = column_stored group.old.kept first W column
          (mask_of r.now.plain mask) (lanes_of r.now.plain from);
    } }
{
    let lanes = lanes_for_column(r, from);
    let active = r.masks[mask.number as usize];
    store_in(&mut group.columns, column as usize, first, active, lanes);
}

/// The lanes of a register, each as 64 bits.
pub(crate) fn lanes_for_column<const W: usize>(r: &Registers<W>, from: Reg) -> Simd<u64, W>
    requires from { IsIn r.now.plain from }
    requires bank { from.bank ≢ Mask }
    requires scalar { from.bank ≢ Scalar }
    ensures { result ≡ lanes_of r.now.plain from }
{
    match from.bank {
        Bank::Narrow => widened(r.narrow[from.number as usize]),
        Bank::Wide => r.wide[from.number as usize],
        Bank::Scalar | Bank::Mask => Simd::splat(0),
    }
}

/// One of two answers in each lane.
fn chosen_truths<const W: usize>(mask: [bool; W], new: [bool; W], old: [bool; W]) -> [bool; W]
    requires { W ≤ 64 }
    ensures { result ≡ zip3 chosen mask.entry new.entry old.entry }
{
    let on = bytes_of(mask).simd_ne(Simd::splat(0));
    truths_of(on.select(bytes_of(new), bytes_of(old)))
}

/// The low 32 bits of each number.
fn low_halves<const W: usize>(values: Simd<u64, W>) -> Simd<u32, W>
    ensures { result ≡ map (λ x. x % 2 ^ 32) values.entry }
{
    (values & Simd::splat(0xffff_ffff)).cast::<u32>()
}

/// Narrow lanes with zeros above them.
fn widened<const W: usize>(a: Simd<u32, W>) -> Simd<u64, W>
    ensures { result ≡ a.entry }
{
    a.cast::<u64>()
}

/// The active lanes into one of the columns.
fn store_in<const W: usize>(
    columns: &mut Vec<Vec<u64>>,
    column: usize,
    first: usize,
    active: [bool; W],
    lanes: Simd<u64, W>,
)
    requires lanes { W ≤ 64 }
    requires first { first < 2 ^ 32 }
    requires column { column < length columns.old.items }
    ensures { map (λ v. v.items) columns.new.items ≡ slice_set (map (λ v. v.items) columns.old.items) column
        (with_window (slice_index_or (map (λ v. v.items) columns.old.items) column []) first
        (sel_l active.entry lanes.entry
        (window 0 (slice_index_or (map (λ v. v.items) columns.old.items) column []) first W))) }
{
    store_column(&mut columns[column], first, active, lanes);
}

/// The active lanes into a column.
fn store_column<const W: usize>(
    column: &mut Vec<u64>,
    first: usize,
    active: [bool; W],
    lanes: Simd<u64, W>,
)
    requires lanes { W ≤ 64 }
    requires first { first < 2 ^ 32 }
    ensures { column.new.items ≡ with_window column.old.items first
        (sel_l active.entry lanes.entry (window 0 column.old.items first W)) }
{
    if is_full(active) {
        put_numbers(column, first, lanes.to_array());
    } else {
        put_active(column, first, active, lanes.to_array());
    }
}
