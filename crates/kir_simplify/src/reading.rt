//! Which values on the way no line reads, for all cells at once.

ghost use Rattle.std.specs.Prelude.{◌≡◌, ℕ, ◌&&◌, not, IfOk, map};
ghost use Rattle.kir.specs.Live.{reads, some_reads, work_reads};
ghost use Rattle.kir.specs.Listed.{cell_of, kind_of, line_before, lines_of, work_of};
ghost use Rattle.kir.specs.Tree.{NoLine};
ghost use Rattle.kir.specs.View.{kernel_of};
ghost use Rattle.kir_simplify.specs.Reading.{reads_in};
ghost use Rattle.kir_simplify.specs.Simple.{is_unread, is_value_kind};
ghost use Rattle.kir_simplify.specs.Tables.{Becomes, listed, values_among};

use kir::{Atom, Cell, CellKind, Kernel, Line, Work};
use std::alloc::Global;
use wg_num::{Memory, push};

/// Whether the kind is that of a value on the way.
fn is_value_kind(kind: &CellKind) -> bool
    ensures { result ≡ is_value_kind (kind_of kind.now) }
{
    match kind {
        CellKind::Variable { .. } | CellKind::Flag => false,
        CellKind::Value => true,
    }
}

/// Whether each cell is a value on the way.
fn value_cells(alloc: Global, cells: &[Cell]) -> Result<Vec<bool>, Memory>
    ensures { IfOk result (λ set. set.items ≡ values_among (map cell_of cells.now)) }
{
    let mut set = Vec::new(alloc);
    for cell in cells {
        push(&mut set, is_value_kind(&cell.kind))?;
    }
    Ok(set)
}

/// The cell of an atom that is read is taken out.
fn clear_atom(set: &mut [bool], atom: Atom)
    ensures { Becomes set.old set.new (λ c entry. not (reads c atom) && entry) }
{
    match atom {
        Atom::Const { .. } => {}
        Atom::Cell(cell) => {
            let cell = cell as usize;
            if cell < set.len() {
                set[cell] = false;
            }
        }
    }
}

/// So are those of atoms.
fn clear_atoms(set: &mut [bool], atoms: &[Atom])
    ensures { Becomes set.old set.new (λ c entry. not (some_reads c atoms.now) && entry) }
{
    for atom in atoms {
        clear_atom(set, *atom);
    }
}

/// So are those from which a line computes.
fn clear_work(set: &mut [bool], work: &Work)
    ensures { Becomes set.old set.new (λ c entry. not (work_reads c (work_of work.now)) && entry) }
{
    match work {
        Work::Unary { a, .. } => clear_atom(set, *a),
        Work::Binary { a, b, .. } => {
            clear_atom(set, *b);
            clear_atom(set, *a);
        }
        Work::Builtin { args, .. } => clear_atoms(set, args),
        Work::Convert { a, .. } => clear_atom(set, *a),
        Work::Ask { dim, .. } => clear_atom(set, *dim),
        Work::Argument(_) => {}
        Work::Copy(a) => clear_atom(set, *a),
    }
}

/// So are those that lines read.
#[cycle(clear)]
fn clear_lines(set: &mut [bool], lines: &[Line])
    ensures { Becomes set.old set.new (λ c entry. not (reads_in c (lines_of lines.now)) && entry) }
{
    for line in lines {
        clear_line(set, line);
    }
}

/// So are those that a line reads, or a line inside it.
#[cycle(clear)]
fn clear_line(set: &mut [bool], line: &Line)
    ensures { Becomes set.old set.new (λ c entry. not (reads_in c (line_before line.now NoLine)) && entry) }
{
    match line {
        Line::Set { work, .. } => clear_work(set, work),
        Line::Load { index, .. } => clear_atom(set, *index),
        Line::Store { index, from, .. } => {
            clear_atom(set, *from);
            clear_atom(set, *index);
        }
        Line::If { test, yes, no, .. } => {
            clear_lines(set, no);
            clear_lines(set, yes);
            clear_atom(set, *test);
        }
        Line::Loop {
            test,
            answer,
            body,
            ..
        } => {
            clear_lines(set, body);
            clear_atom(set, *answer);
            clear_lines(set, test);
        }
        Line::Clear { .. } | Line::Barrier { .. } => {}
    }
}

/// Which cells are values on the way that none of the lines reads.
fn cleared_cells(alloc: Global, cells: &[Cell], lines: &[Line]) -> Result<Vec<bool>, Memory>
    ensures { IfOk result (λ set. Becomes (values_among (map cell_of cells.now)) set.items
        (λ c entry. not (reads_in c (lines_of lines.now)) && entry)) }
{
    let mut set = value_cells(alloc, cells)?;
    clear_lines(&mut set, lines);
    Ok(set)
}

/// Which cells are values on the way that no line of the kernel reads.
pub(crate) fn unread_cells(alloc: Global, kernel: &Kernel) -> Result<Vec<bool>, Memory>
    ensures { IfOk result (λ set. (c : ℕ) → listed set.items c ≡ is_unread (kernel_of kernel.now) c) }
{
    let set = cleared_cells(alloc, &kernel.cells, &kernel.body)?;
    Ok(set)
}

/// What the list says of a cell; of one that it does not have, no.
pub(crate) fn is_listed(set: &[bool], cell: u32) -> bool
    ensures { result ≡ listed set.now cell }
{
    match set.get(cell as usize) {
        Some(entry) => *entry,
        None => false,
    }
}
