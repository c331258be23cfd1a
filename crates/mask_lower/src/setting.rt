//! Which cells the lines of a region set, and which of them before any line reads them.

ghost use Rattle.std.specs.Prelude.{◌≡◌, ◌<◌, ℕ, ◌&&◌, ◌||◌, false, not, nat_eq, vec_len, slice_index_or};
ghost use Rattle.std.specs.Prelude.{Bool as Test, IfOk, OnOk};
ghost use Rattle.kir.specs.Tree.{Lines};
ghost use Rattle.kir.specs.Listed.{line_before, lines_of, work_of};
ghost use Rattle.kir.specs.Live.{reads, some_reads, work_reads};
ghost use Rattle.kir_uniform.specs.Uniform.{sets_in};
ghost use Rattle.mask_lower.specs.Homes.{put_cells as cells_put, sets_first as first_set};
ghost use Rattle.mask_lower.specs.Uses as table;

use crate::placing::is_marked;
use kir::{Atom, Line, Work};
use std::alloc::Global;
use wg_num::{Memory, push};

/// What the first line that names a cell does with it. The lines are those before the first branch or
/// loop.
#[derive(Clone, Copy)]
pub enum FirstUse {
    /// None of them names it.
    Neither,
    /// It reads the cell.
    Read,
    /// It sets the cell, and does not read it.
    Set,
}

/// So many cells, none of which is marked.
fn none_set(alloc: Global, cells: usize) -> Result<Vec<bool>, Memory>
    ensures { IfOk result (λ set. (c : ℕ) → slice_index_or set.items c false ≡ false) }
{
    match vec![in alloc; false; cells] {
        Ok(set) => Ok(set),
        Err(_) => Err(Memory),
    }
}

/// A table that has an entry for the cell; new entries are this.
fn make_room<T: Copy + Drop>(table: &mut Vec<T>, at: usize, none: T) -> Result<(), Memory>
    ensures same { OnOk result ((c : ℕ) →
        slice_index_or table.new.items c none ≡ slice_index_or table.old.items c none) }
    ensures room { OnOk result (at < vec_len table.new) }
{
    while table.len() <= at {
        push(table, none)?;
    }
    Ok(())
}

/// Marks the cell; the table becomes longer where it ends before the cell.
#[inline(never)]
fn mark_cell(set: &mut Vec<bool>, cell: u32) -> Result<(), Memory>
    ensures { OnOk result ((c : ℕ) → slice_index_or set.new.items c false ≡
        (nat_eq cell c || slice_index_or set.old.items c false)) }
{
    let index = cell as usize;
    make_room(set, index, false)?;
    set[index] = true;
    Ok(())
}

/// Marks the cells that lines set.
#[cycle(set)]
fn mark_lines(set: &mut Vec<bool>, lines: &Vec<Line>) -> Result<(), Memory>
    ensures { OnOk result ((c : ℕ) → slice_index_or set.new.items c false ≡
        (sets_in c (lines_of lines.now.items) || slice_index_or set.old.items c false)) }
{
    for line in lines {
        mark_line(set, line)?;
    }
    Ok(())
}

/// Marks those that a line sets, or a line inside it, before what those behind it do.
#[cycle(set)]
fn mark_line(set: &mut Vec<bool>, line: &Line) -> Result<(), Memory>
    ensures { OnOk result ((c : ℕ) (rest : Lines) →
        (sets_in c (line_before line.now rest) || slice_index_or set.old.items c false) ≡
        (sets_in c rest || slice_index_or set.new.items c false)) }
{
    match line {
        Line::Set { to, .. } | Line::Load { to, .. } => {
            mark_cell(set, *to)?;
            Ok(())
        }
        Line::Store { .. } | Line::Clear { .. } | Line::Barrier { .. } => Ok(()),
        Line::If { yes, no, .. } => {
            mark_lines(set, yes)?;
            mark_lines(set, no)?;
            Ok(())
        }
        Line::Loop { test, body, .. } => {
            mark_lines(set, test)?;
            mark_lines(set, body)?;
            Ok(())
        }
    }
}

/// Which of so many cells the lines set.
fn set_cells(alloc: Global, cells: usize, lines: &Vec<Line>) -> Result<Vec<bool>, Memory>
    ensures { IfOk result (λ set. (c : ℕ) → slice_index_or set.items c false ≡
        sets_in c (lines_of lines.now.items)) }
{
    let mut set = none_set(alloc, cells)?;
    mark_lines(&mut set, lines)?;
    Ok(set)
}

/// Those of the list that the lines set, where there are so many cells.
pub(crate) fn put_cells(
    alloc: Global,
    cells: usize,
    lines: &Vec<Line>,
    live: &Vec<u32>,
) -> Result<Vec<u32>, Memory>
    ensures { IfOk result (λ put. put.items ≡ cells_put (lines_of lines.now.items) live.now.items) }
{
    let set = set_cells(alloc, cells, lines)?;
    let mut put = Vec::new(alloc);
    for cell in live {
        if is_marked(&set, *cell as usize) {
            push(&mut put, *cell)?;
        }
    }
    Ok(put)
}

/// So many cells that no line names.
fn none_used(alloc: Global, cells: usize) -> Result<Vec<FirstUse>, Memory>
    ensures { IfOk result (λ uses. (c : ℕ) → table.use_at uses.items c ≡ table.unnamed) }
{
    match vec![in alloc; FirstUse::Neither; cells] {
        Ok(uses) => Ok(uses),
        Err(_) => Err(Memory),
    }
}

/// What is done first, where this was done first so far, and then that.
fn first_of(so_far: FirstUse, then: FirstUse) -> FirstUse
    ensures { (behind : Test) → table.is_set_first result behind ≡
        table.is_set_first so_far (table.is_set_first then behind) }
{
    match so_far {
        FirstUse::Neither => then,
        FirstUse::Read | FirstUse::Set => so_far,
    }
}

/// Notes that the cell is used so; the table becomes longer where it ends before the cell.
fn note(uses: &mut Vec<FirstUse>, cell: u32, found: FirstUse) -> Result<(), Memory>
    ensures { OnOk result ((c : ℕ) (behind : Test) →
        table.is_set_first (table.use_at uses.old.items c) (table.used_at cell found c behind) ≡
        table.is_set_first (table.use_at uses.new.items c) behind) }
{
    let index = cell as usize;
    make_room(uses, index, FirstUse::Neither)?;
    let so_far = uses[index];
    uses[index] = first_of(so_far, found);
    Ok(())
}

/// Notes that a line sets the cell.
fn note_set(uses: &mut Vec<FirstUse>, to: u32) -> Result<(), Memory>
    ensures { OnOk result ((c : ℕ) (behind : Test) →
        table.is_set_first (table.use_at uses.old.items c) (nat_eq c to || behind) ≡
        table.is_set_first (table.use_at uses.new.items c) behind) }
{
    note(uses, to, FirstUse::Set)?;
    Ok(())
}

/// Notes that a line reads the atom.
fn note_atom(uses: &mut Vec<FirstUse>, atom: Atom) -> Result<(), Memory>
    ensures { OnOk result ((c : ℕ) (behind : Test) →
        table.is_set_first (table.use_at uses.old.items c) (not (reads c atom) && behind) ≡
        table.is_set_first (table.use_at uses.new.items c) behind) }
{
    match atom {
        Atom::Const { .. } => Ok(()),
        Atom::Cell(cell) => {
            note(uses, cell, FirstUse::Read)?;
            Ok(())
        }
    }
}

/// Notes that a line reads two.
fn note_two(uses: &mut Vec<FirstUse>, a: Atom, b: Atom) -> Result<(), Memory>
    ensures { OnOk result ((c : ℕ) (behind : Test) →
        table.is_set_first (table.use_at uses.old.items c) (not (reads c a || reads c b) && behind) ≡
        table.is_set_first (table.use_at uses.new.items c) behind) }
{
    note_atom(uses, a)?;
    note_atom(uses, b)?;
    Ok(())
}

/// Notes that a line reads each of the atoms.
fn note_atoms(uses: &mut Vec<FirstUse>, atoms: &Vec<Atom>) -> Result<(), Memory>
    ensures { OnOk result ((c : ℕ) (behind : Test) →
        table.is_set_first (table.use_at uses.old.items c) (not (some_reads c atoms.now.items) && behind) ≡
        table.is_set_first (table.use_at uses.new.items c) behind) }
{
    for atom in atoms {
        note_atom(uses, *atom)?;
    }
    Ok(())
}

/// Notes what is read for what a line computes.
fn note_work(uses: &mut Vec<FirstUse>, work: &Work) -> Result<(), Memory>
    ensures { OnOk result ((c : ℕ) (behind : Test) →
        table.is_set_first (table.use_at uses.old.items c) (not (work_reads c (work_of work.now)) && behind) ≡
        table.is_set_first (table.use_at uses.new.items c) behind) }
{
    match work {
        Work::Unary { a, .. } | Work::Convert { a, .. } | Work::Copy(a) => {
            note_atom(uses, *a)?;
            Ok(())
        }
        Work::Binary { a, b, .. } => {
            note_two(uses, *a, *b)?;
            Ok(())
        }
        Work::Builtin { args, .. } => {
            note_atoms(uses, args)?;
            Ok(())
        }
        Work::Ask { dim, .. } => {
            note_atom(uses, *dim)?;
            Ok(())
        }
        Work::Argument(_) => Ok(()),
    }
}

/// Notes what a line does, and whether the lines behind it are to be looked at: not those behind a
/// branch or a loop.
fn note_line(uses: &mut Vec<FirstUse>, line: &Line) -> Result<bool, Memory>
    ensures { IfOk result (λ goes_on. (c : ℕ) (rest : Lines) →
        table.is_set_first (table.use_at uses.old.items c) (first_set c (line_before line.now rest)) ≡
        table.is_set_first (table.use_at uses.new.items c) (goes_on && first_set c rest)) }
{
    match line {
        Line::Set { to, work } => {
            note_work(uses, work)?;
            note_set(uses, *to)?;
            Ok(true)
        }
        Line::Load { to, index, .. } => {
            note_atom(uses, *index)?;
            note_set(uses, *to)?;
            Ok(true)
        }
        Line::Store { index, from, .. } => {
            note_two(uses, *index, *from)?;
            Ok(true)
        }
        Line::Clear { .. } | Line::Barrier { .. } => Ok(true),
        Line::If { .. } | Line::Loop { .. } => Ok(false),
    }
}

/// What is done first with each of so many cells.
pub(crate) fn first_uses(
    alloc: Global,
    cells: usize,
    lines: &Vec<Line>,
) -> Result<Vec<FirstUse>, Memory>
    ensures { IfOk result (λ uses. (c : ℕ) → table.is_set_first (table.use_at uses.items c) false ≡
        first_set c (lines_of lines.now.items)) }
{
    let mut uses = none_used(alloc, cells)?;
    for line in lines {
        let goes_on = note_line(&mut uses, line)?;
        if !goes_on {
            return Ok(uses);
        }
    }
    Ok(uses)
}

/// Whether the cell is set before it is read.
pub(crate) fn is_set_first(uses: &Vec<FirstUse>, cell: usize) -> bool
    ensures { result ≡ table.is_set_first (table.use_at uses.now.items cell) false }
{
    match uses.get(cell).copied().unwrap_or(FirstUse::Neither) {
        FirstUse::Neither | FirstUse::Read => false,
        FirstUse::Set => true,
    }
}
