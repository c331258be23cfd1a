//! Marks on the registers of a code.

ghost use Rattle.std.specs.Prelude.{◌≡◌, ℕ, ◌<◌, ◌||◌, ◌&&◌, length, IfOk, slice_index_or, false, not};
ghost use Rattle.lane_code.specs.declared.step.Reg.{Reg};
ghost use Rattle.lane_code.specs.Fits.{is_below};
ghost use Rattle.lane_tidy.specs.Reads.{same_reg, is_among, is_read};
ghost use Rattle.lane_tidy.specs.Constants.{is_put};
ghost use Rattle.lane_tidy.specs.Marks.{place_of, room_for};

use crate::reads::reads_of;
use lane_code::{Bank, Counts, Reg, Step};
use std::alloc::Global;
use wg_num::Memory;

/// Where the mark of a register stands among those of all.
pub(crate) fn place_of(x: Reg) -> usize
    ensures { result ≡ place_of x }
{
    let number = x.number as usize;
    match x.bank {
        Bank::Narrow => 4 * number,
        Bank::Wide => 4 * number + 1,
        Bank::Mask => 4 * number + 2,
        Bank::Scalar => 4 * number + 3,
    }
}

/// Marks the register, if it has a mark.
pub(crate) fn mark_one(marks: &mut [bool], x: Reg)
    ensures { (y : Reg) → place_of y < length marks.old →
        slice_index_or marks.new (place_of y) false ≡ slice_index_or marks.old (place_of y) false || same_reg x y }
{
    let at = place_of(x);
    if at < marks.len() {
        marks[at] = true;
    }
}

/// Takes the mark of the register, if there is one and it has a mark.
pub(crate) fn unmark(marks: &mut [bool], x: Option<Reg>)
    ensures { (y : Reg) → place_of y < length marks.old →
        slice_index_or marks.new (place_of y) false ≡ slice_index_or marks.old (place_of y) false && not (is_put x y) }
{
    if let Some(x) = x {
        let at = place_of(x);
        if at < marks.len() {
            marks[at] = false;
        }
    }
}

/// Marks the registers.
pub(crate) fn mark_all(marks: &mut [bool], registers: &[Reg])
    ensures { (y : Reg) → place_of y < length marks.old →
        slice_index_or marks.new (place_of y) false ≡ slice_index_or marks.old (place_of y) false || is_among
        registers.now y }
{
    for x in registers {
        mark_one(marks, *x);
    }
}

/// No marks, one for each register of a code.
pub(crate) fn unmarked(alloc: Global, counts: Counts) -> Result<Vec<bool>, Memory>
    ensures room { IfOk result (λ v. length v.items ≡ room_for counts) }
    ensures none { IfOk result (λ v. (n : ℕ) → slice_index_or v.items n false ≡ false) }
{
    let lanes = counts.narrow as usize + counts.wide as usize;
    let others = counts.masks as usize + counts.scalars as usize;
    match vec![in alloc; false; 4 * (lanes + others)] {
        Ok(marks) => Ok(marks),
        Err(_) => Err(Memory),
    }
}

/// Which registers the steps read.
pub(crate) fn read_marks(alloc: Global, counts: Counts, steps: &[Step]) -> Result<Vec<bool>, Memory>
    ensures room { IfOk result (λ v. length v.items ≡ room_for counts) }
    ensures read { IfOk result (λ v. (x : Reg) → place_of x < room_for counts →
        slice_index_or v.items (place_of x) false ≡ is_read steps.now x) }
{
    let mut marks = unmarked(alloc, counts)?;
    for step in steps {
        mark_all(&mut marks, reads_of(*step).list());
    }
    Ok(marks)
}
