//! Lines behind other lines. Each function here answers `Memory` where memory was refused.

ghost use Rattle.std.specs.Prelude.{◌≡◌, IfOk, OnOk};
ghost use Rattle.kir.specs.Listed.{lines_of, line_before, work_of};
ghost use Rattle.kir.specs.Tree.{NoLine, SetThen, IfThen, BarrierThen, joined_to};
ghost use Rattle.kir_lower.specs.Actions as spec;
ghost use Rattle.kir_lower.specs.View.{made_of};

use crate::places::{Made, Value, add_value};
use kir::{Atom, Line, Work};
use std::alloc::Global;
use wg_num::{IntType, Memory, push};

/// One more line behind the lines.
#[tactic(auto, using(crate::proofs::Lists::lines_put))]
#[inline(never)]
pub fn put(lines: &mut Vec<Line>, line: Line) -> Result<(), Memory>
    ensures { OnOk result (lines_of lines.new.items ≡ joined_to (lines_of lines.old.items)
        (line_before line NoLine)) }
{
    push(lines, line)
}

/// One more line, which sets a cell to what the work gives.
#[inline(never)]
pub fn put_set(lines: &mut Vec<Line>, to: u32, work: Work) -> Result<(), Memory>
    ensures { OnOk result (lines_of lines.new.items ≡ joined_to (lines_of lines.old.items)
        (SetThen to (work_of work) NoLine)) }
{
    put(lines, Line::Set { to, work })
}

/// One more line, which sets a cell to an atom of its type.
#[inline(never)]
pub fn put_copy(lines: &mut Vec<Line>, to: u32, atom: Atom) -> Result<(), Memory>
    ensures { OnOk result (lines_of lines.new.items ≡ joined_to (lines_of lines.old.items) (spec.set_to to atom)) }
{
    put(
        lines,
        Line::Set {
            to,
            work: Work::Copy(atom),
        },
    )
}

/// One more line, a barrier, whose place is that of the site (OpenCL 1.2, section 6.12.8).
#[inline(never)]
pub fn put_barrier(lines: &mut Vec<Line>, site: u32) -> Result<(), Memory>
    ensures { OnOk result (lines_of lines.new.items ≡ joined_to (lines_of lines.old.items)
        (BarrierThen site NoLine)) }
{
    put(lines, Line::Barrier { site })
}

/// One more line, a choice: the lines `yes` where the test is not 0, and else the lines `no`.
#[tactic(auto, using(kir::proofs::Rows::if_listed))]
#[inline(never)]
pub fn put_if(
    lines: &mut Vec<Line>,
    site: u32,
    test: Atom,
    yes: Vec<Line>,
    no: Vec<Line>,
) -> Result<(), Memory>
    ensures { OnOk result (lines_of lines.new.items ≡ joined_to (lines_of lines.old.items)
        (IfThen site test (lines_of yes.items) (lines_of no.items) NoLine)) }
{
    put(
        lines,
        Line::If {
            site,
            test,
            yes,
            no,
        },
    )
}

/// One more line, which computes the value of a new cell; the answer is that cell, with its type. `Memory` is
/// answered too where the kernel has 2^32 cells already.
#[inline(never)]
pub fn put_computed(
    made: &mut Made,
    lines: &mut Vec<Line>,
    work: Work,
    of: IntType,
) -> Result<Value, Memory>
    ensures lines { OnOk result (lines_of lines.new.items ≡ joined_to (lines_of lines.old.items)
        (spec.computed (work_of work) of (made_of made.old)).lines) }
    ensures value { IfOk result (λ v. v ≡ (spec.computed (work_of work) of (made_of made.old)).value) }
    ensures made { OnOk result (made_of made.new ≡ (spec.computed (work_of work) of (made_of made.old)).made) }
{
    match add_value(made, of) {
        Ok(to) => {
            put_set(lines, to, work)?;
            Ok(Value {
                atom: Atom::Cell(to),
                of,
            })
        }
        Err(error) => {
            drop(work);
            Err(error)
        }
    }
}

/// All lines of a list behind the lines, in order.
#[tactic(auto, using(crate::proofs::Lists::lines_both))]
#[inline(never)]
pub fn put_all(lines: &mut Vec<Line>, mut rest: Vec<Line>) -> Result<(), Memory>
    ensures { OnOk result (lines_of lines.new.items ≡ joined_to (lines_of lines.old.items) (lines_of rest.items)) }
{
    match lines.append(&mut rest) {
        Ok(()) => Ok(()),
        Err(_) => Err(Memory),
    }
}

/// One more line, which does the lines inside only where no way out is pending in the cell `exit`; none where there
/// are no lines inside.
#[tactic(auto, using(crate::proofs::Lists::join_none))]
#[inline(never)]
pub fn put_guarded(
    alloc: Global,
    lines: &mut Vec<Line>,
    site: u32,
    exit: u32,
    inside: Vec<Line>,
) -> Result<(), Memory>
    ensures { OnOk result (lines_of lines.new.items ≡ joined_to (lines_of lines.old.items)
        (spec.guarded_before site exit (lines_of inside.items) NoLine)) }
{
    if inside.len() == 0 {
        drop(inside);
        Ok(())
    } else {
        put_if(lines, site, Atom::Cell(exit), Vec::new(alloc), inside)
    }
}
