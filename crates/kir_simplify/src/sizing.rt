//! How large lines are: the cells that they read, their operators, and the lines themselves. A list has one mark for
//! each, so that their number has room.

ghost use Rattle.std.specs.Prelude.{◌≡◌, ◌+◌, IfOk, OnOk, length};
ghost use Rattle.kir.specs.Listed.{line_before, lines_of, work_of};
ghost use Rattle.kir.specs.Tree.{NoLine};
ghost use Rattle.kir_simplify.specs.Passes.{atom_size, atoms_size, size_of, work_size};

use kir::{Atom, Line, Work};
use std::alloc::Global;
use wg_num::{Memory, push};

/// One mark more.
fn mark(marks: &mut Vec<u8>) -> Result<(), Memory>
    ensures { OnOk result (length marks.new.items ≡ length marks.old.items + 1) }
{
    push(marks, 0)
}

/// A mark where a cell is read.
fn mark_atom(marks: &mut Vec<u8>, atom: Atom) -> Result<(), Memory>
    ensures { OnOk result (length marks.new.items ≡ length marks.old.items + atom_size atom) }
{
    match atom {
        Atom::Const { .. } => Ok(()),
        Atom::Cell(_) => mark(marks),
    }
}

/// A mark for each cell that is read.
fn mark_atoms(marks: &mut Vec<u8>, atoms: &[Atom]) -> Result<(), Memory>
    ensures { OnOk result (length marks.new.items ≡ length marks.old.items + atoms_size atoms.now) }
{
    for atom in atoms {
        mark_atom(marks, *atom)?;
    }
    Ok(())
}

/// A mark for each cell that is read, and one for an operator, two for one of two operands.
fn mark_work(marks: &mut Vec<u8>, work: &Work) -> Result<(), Memory>
    ensures { OnOk result (length marks.new.items ≡ length marks.old.items + work_size (work_of work.now)) }
{
    match work {
        Work::Unary { a, .. } | Work::Convert { a, .. } => {
            mark(marks)?;
            mark_atom(marks, *a)
        }
        Work::Binary { a, b, .. } => {
            mark(marks)?;
            mark(marks)?;
            mark_atom(marks, *a)?;
            mark_atom(marks, *b)
        }
        Work::Builtin { args, .. } => {
            mark(marks)?;
            mark_atoms(marks, args)
        }
        Work::Ask { dim, .. } => mark_atom(marks, *dim),
        Work::Argument(_) => Ok(()),
        Work::Copy(a) => mark_atom(marks, *a),
    }
}

/// The marks of lines, with those inside them.
#[cycle(size)]
fn mark_lines(marks: &mut Vec<u8>, lines: &[Line]) -> Result<(), Memory>
    ensures { OnOk result (length marks.new.items ≡ length marks.old.items + size_of (lines_of lines.now)) }
{
    for line in lines {
        mark_line(marks, line)?;
    }
    Ok(())
}

/// The marks of a line, with those inside it.
#[cycle(size)]
fn mark_line(marks: &mut Vec<u8>, line: &Line) -> Result<(), Memory>
    ensures { OnOk result (length marks.new.items ≡ length marks.old.items + size_of (line_before line.now NoLine)) }
{
    mark(marks)?;
    match line {
        Line::Set { work, .. } => mark_work(marks, work),
        Line::Load { index, .. } => mark_atom(marks, *index),
        Line::Store { index, from, .. } => {
            mark_atom(marks, *index)?;
            mark_atom(marks, *from)
        }
        Line::If { test, yes, no, .. } => {
            mark_atom(marks, *test)?;
            mark_lines(marks, yes)?;
            mark_lines(marks, no)
        }
        Line::Loop {
            test,
            answer,
            body,
            ..
        } => {
            mark_lines(marks, test)?;
            mark_atom(marks, *answer)?;
            mark_lines(marks, body)
        }
        Line::Clear { .. } | Line::Barrier { .. } => Ok(()),
    }
}

/// The size of lines, with those inside them.
pub(crate) fn lines_size(alloc: Global, lines: &[Line]) -> Result<usize, Memory>
    ensures { IfOk result (λ size. size ≡ size_of (lines_of lines.now)) }
{
    let mut marks = Vec::new(alloc);
    mark_lines(&mut marks, lines)?;
    Ok(marks.len())
}
