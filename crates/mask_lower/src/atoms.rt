//! The atoms that a region names.

ghost use Rattle.std.specs.Prelude.{◌≡◌, ◌++◌, [], IfOk, OnOk};
ghost use Rattle.kir.specs.Tree.{Lines};
ghost use Rattle.kir.specs.Listed.{line_before, lines_of, work_of};
ghost use Rattle.regions.specs.View.{region_of};
ghost use Rattle.mask_lower.specs.Atoms as spec;

use crate::registers::{amount_type, crosses};
use kir::{Atom, Line, Work};
use regions::Region;
use std::alloc::Global;
use wg_num::{Bin, IntType, Memory, is_shift, push, wrap};

/// What is read for the amount of a shift: a constant for the other bank is one of this bank.
fn amount_atom(of: IntType, atom: Atom) -> Atom
    ensures { result ≡ spec.amount_atom of atom }
{
    match atom {
        Atom::Const { value, of: was } => {
            if crosses(of, was) {
                let kind = amount_type(of);
                Atom::Const {
                    value: wrap(kind, value),
                    of: kind,
                }
            } else {
                atom
            }
        }
        Atom::Cell(_) => atom,
    }
}

/// What is read for a right operand.
pub(crate) fn right_atom(op: Bin, of: IntType, b: Atom) -> Atom
    ensures { result ≡ spec.right_atom op of b }
{
    if is_shift(op) { amount_atom(of, b) } else { b }
}

/// The atoms behind others.
fn list_args(atoms: &mut Vec<Atom>, args: &Vec<Atom>) -> Result<(), Memory>
    ensures { OnOk result (atoms.new.items ≡ atoms.old.items ++ args.now.items) }
{
    match atoms.extend_from_slice(args) {
        Ok(()) => Ok(()),
        Err(_) => Err(Memory),
    }
}

/// What is read for what a line computes.
fn list_work(atoms: &mut Vec<Atom>, work: &Work) -> Result<(), Memory>
    ensures { OnOk result (atoms.new.items ≡ atoms.old.items ++ spec.atoms_of (work_of work.now)) }
{
    match work {
        Work::Unary { a, .. } | Work::Convert { a, .. } | Work::Copy(a) => {
            push(atoms, *a)?;
            Ok(())
        }
        Work::Binary { op, of, a, b } => {
            push(atoms, *a)?;
            push(atoms, right_atom(*op, *of, *b))?;
            Ok(())
        }
        Work::Builtin { args, .. } => {
            list_args(atoms, args)?;
            Ok(())
        }
        Work::Ask { dim, .. } => {
            push(atoms, *dim)?;
            Ok(())
        }
        Work::Argument(_) => Ok(()),
    }
}

/// What lines name.
#[cycle(atoms)]
fn list_lines(atoms: &mut Vec<Atom>, lines: &Vec<Line>) -> Result<(), Memory>
    ensures { OnOk result (atoms.new.items ≡ atoms.old.items ++ spec.atoms_in (lines_of lines.now.items)) }
{
    for line in lines {
        list_line(atoms, line)?;
    }
    Ok(())
}

/// What a line names, before what those behind it do.
#[cycle(atoms)]
fn list_line(atoms: &mut Vec<Atom>, line: &Line) -> Result<(), Memory>
    ensures { OnOk result ((rest : Lines) → atoms.old.items ++ spec.atoms_in (line_before line.now rest) ≡
        atoms.new.items ++ spec.atoms_in rest) }
{
    match line {
        Line::Set { to, work } => {
            push(atoms, Atom::Cell(*to))?;
            list_work(atoms, work)?;
            Ok(())
        }
        Line::Load { to, index, .. } => {
            push(atoms, Atom::Cell(*to))?;
            push(atoms, *index)?;
            Ok(())
        }
        Line::Store { index, from, .. } => {
            push(atoms, *index)?;
            push(atoms, *from)?;
            Ok(())
        }
        Line::Clear { .. } | Line::Barrier { .. } => Ok(()),
        Line::If { test, yes, no, .. } => {
            push(atoms, *test)?;
            list_lines(atoms, yes)?;
            list_lines(atoms, no)?;
            Ok(())
        }
        Line::Loop {
            test,
            answer,
            body,
            ..
        } => {
            list_lines(atoms, body)?;
            list_lines(atoms, test)?;
            push(atoms, *answer)?;
            Ok(())
        }
    }
}

/// The atom of a vote, if there is one.
fn list_answer(atoms: &mut Vec<Atom>, answer: Option<Atom>) -> Result<(), Memory>
    ensures { OnOk result (atoms.new.items ≡ atoms.old.items ++ spec.atoms_voted answer) }
{
    match answer {
        None => Ok(()),
        Some(answer) => {
            push(atoms, answer)?;
            Ok(())
        }
    }
}

/// What a region names: its lines and its answer.
pub(crate) fn region_atoms(alloc: Global, region: &Region) -> Result<Vec<Atom>, Memory>
    ensures { IfOk result (λ atoms. atoms.items ≡ spec.region_atoms (region_of region.now)) }
{
    let mut atoms = Vec::new(alloc);
    list_lines(&mut atoms, &region.lines)?;
    list_answer(&mut atoms, region.answer)?;
    Ok(atoms)
}
