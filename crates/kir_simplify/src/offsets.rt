//! Cells that hold the offset of a pointer, which each launch makes 0.

ghost use Rattle.std.specs.Prelude.{◌≡◌, ℕ, ◌||◌, nat_eq, IfOk, OnOk};
ghost use Rattle.kir.specs.Listed.{lines_of, work_of};
ghost use Rattle.kir.specs.View.{kernel_of};
ghost use Rattle.kir_simplify.specs.Offsets as offset;
ghost use Rattle.kir_simplify.specs.Passes.{holds_offset, offsets_of};
ghost use Rattle.kir_simplify.specs.Simple.{is_set_once};
ghost use Rattle.kir_simplify.specs.Tables.{is_one_at, listed, offset_of_line, offsets_by, once_by};

use crate::counting::{counted, is_one, make_room};
use cl_model::{VarKind, is_pointer};
use kir::{Kernel, Line, Work};
use std::alloc::Global;
use wg_num::Memory;

/// What all lines of a kernel say of its cells.
#[derive(Drop)]
pub(crate) struct CellFacts {
    /// How many lines set each: none, one or more.
    pub(crate) sets: Vec<u8>,
    /// Which hold the offset of a pointer that is a parameter.
    pub(crate) offsets: Vec<bool>,
}

/// Whether what is computed is the offset of a pointer that is a parameter.
fn is_offset(params: &[VarKind], work: &Work) -> bool
    ensures { result ≡ offset.is_offset params.now (work_of work.now) }
{
    match work {
        Work::Argument(number) => is_pointer(params, *number),
        Work::Unary { .. }
        | Work::Binary { .. }
        | Work::Builtin { .. }
        | Work::Convert { .. }
        | Work::Ask { .. }
        | Work::Copy(_) => false,
    }
}

/// The cell that the line sets to such an offset, where no other line sets it.
fn offset_cell(sets: &[u8], params: &[VarKind], line: &Line) -> Option<u32>
    ensures { result ≡ offset_of_line (is_one_at sets.now) params.now line.now }
{
    match line {
        Line::Set { to, work } => {
            if is_one(sets, *to) && is_offset(params, work) {
                Some(*to)
            } else {
                None
            }
        }
        Line::Load { .. }
        | Line::Store { .. }
        | Line::Clear { .. }
        | Line::If { .. }
        | Line::Loop { .. }
        | Line::Barrier { .. } => None,
    }
}

/// The cell holds an offset.
fn mark_offset(offsets: &mut Vec<bool>, cell: u32) -> Result<(), Memory>
    ensures { OnOk result ((c : ℕ) → listed offsets.new.items c ≡ (nat_eq c cell || listed offsets.old.items c)) }
{
    let at = cell as usize;
    make_room(offsets, at, false)?;
    offsets[at] = true;
    Ok(())
}

/// Which cells one of these lines sets to such an offset, where no other line sets them.
fn offsets_among(
    alloc: Global,
    sets: &[u8],
    params: &[VarKind],
    lines: &[Line],
) -> Result<Vec<bool>, Memory>
    ensures { IfOk result (λ offsets. (c : ℕ) →
        listed offsets.items c ≡ holds_offset (is_one_at sets.now) params.now c (lines_of lines.now)) }
{
    let mut offsets = Vec::new(alloc);
    for line in lines {
        if let Some(cell) = offset_cell(sets, params, line) {
            mark_offset(&mut offsets, cell)?;
        }
    }
    Ok(offsets)
}

/// What the lines of a kernel say of its cells.
pub(crate) fn facts_of(alloc: Global, kernel: &Kernel) -> Result<CellFacts, Memory>
    ensures once { IfOk result (λ facts. (c : ℕ) → once_by facts c ≡ is_set_once (kernel_of kernel.now) c) }
    ensures offsets { IfOk result (λ facts. (c : ℕ) → offsets_by facts c ≡ offsets_of (kernel_of kernel.now) c) }
{
    let sets = counted(alloc, &kernel.body)?;
    let offsets = offsets_among(alloc, &sets, &kernel.params, &kernel.body)?;
    Ok(CellFacts { sets, offsets })
}
