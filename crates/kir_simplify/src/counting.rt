//! How many lines set each cell: none, one or more, for which 2 stands.

ghost use Rattle.std.specs.Prelude.{◌≡◌, ℕ, ◌+◌, ◌<◌, IfOk, OnOk, slice_index_or, vec_len};
ghost use Rattle.kir.specs.Listed.{line_before, lines_of};
ghost use Rattle.kir.specs.Tree.{NoLine};
ghost use Rattle.kir_simplify.specs.Reading.{one_if, sets_in, up_to_two};
ghost use Rattle.kir_simplify.specs.Tables.{is_one_at};

use kir::Line;
use std::alloc::Global;
use wg_num::{Memory, push};

/// A table that has an entry for the cell; new entries are this.
pub(crate) fn make_room<T: Copy + Drop>(
    table: &mut Vec<T>,
    at: usize,
    none: T,
) -> Result<(), Memory>
    ensures same { OnOk result ((c : ℕ) →
        slice_index_or table.new.items c none ≡ slice_index_or table.old.items c none) }
    ensures room { OnOk result (at < vec_len table.new) }
{
    while table.len() <= at {
        push(table, none)?;
    }
    Ok(())
}

/// A line that sets the cell. Memory where it was refused.
fn count_cell(sets: &mut Vec<u8>, to: u32) -> Result<(), Memory>
    ensures { OnOk result ((c : ℕ) → up_to_two (slice_index_or sets.new.items c 0) ≡
        up_to_two (one_if c to + slice_index_or sets.old.items c 0)) }
{
    let at = to as usize;
    make_room(sets, at, 0)?;
    if sets[at] < 2 {
        sets[at] += 1;
    }
    Ok(())
}

/// The lines that set cells, and those inside them.
#[cycle(count)]
pub(crate) fn count_lines(sets: &mut Vec<u8>, lines: &[Line]) -> Result<(), Memory>
    ensures { OnOk result ((c : ℕ) → up_to_two (slice_index_or sets.new.items c 0) ≡
        up_to_two (sets_in c (lines_of lines.now) + slice_index_or sets.old.items c 0)) }
{
    for line in lines {
        count_line(sets, line)?;
    }
    Ok(())
}

/// A line, and those inside it.
#[cycle(count)]
fn count_line(sets: &mut Vec<u8>, line: &Line) -> Result<(), Memory>
    ensures { OnOk result ((c : ℕ) → up_to_two (slice_index_or sets.new.items c 0) ≡
        up_to_two (sets_in c (line_before line.now NoLine) + slice_index_or sets.old.items c 0)) }
{
    match line {
        Line::Set { to, .. } | Line::Load { to, .. } => count_cell(sets, *to),
        Line::If { yes, no, .. } => {
            count_lines(sets, yes)?;
            count_lines(sets, no)
        }
        Line::Loop { test, body, .. } => {
            count_lines(sets, test)?;
            count_lines(sets, body)
        }
        Line::Store { .. } | Line::Clear { .. } | Line::Barrier { .. } => Ok(()),
    }
}

/// How many of the lines, and of those inside them, set each cell.
pub(crate) fn counted(alloc: Global, lines: &[Line]) -> Result<Vec<u8>, Memory>
    ensures { IfOk result (λ sets. (c : ℕ) → up_to_two (slice_index_or sets.items c 0) ≡
        up_to_two (sets_in c (lines_of lines.now))) }
{
    let mut sets = Vec::new(alloc);
    count_lines(&mut sets, lines)?;
    Ok(sets)
}

/// Whether one line alone sets the cell.
pub(crate) fn is_one(sets: &[u8], cell: u32) -> bool
    ensures { result ≡ is_one_at sets.now cell }
{
    match sets.get(cell as usize) {
        Some(count) => *count == 1,
        None => false,
    }
}
