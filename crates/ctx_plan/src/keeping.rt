//! Which cells the text of a kernel names on both sides of a cut.

ghost use Rattle.std.specs.Prelude.{◌≡◌, ◌∷◌, [], ◌||◌, replicate, None, IfOk};
ghost use Rattle.kir.specs.Tree.{NoLine};
ghost use Rattle.kir.specs.Listed.{line_before, lines_of, work_of};
ghost use Rattle.kir.specs.Cuts.{holds_barrier};
ghost use Rattle.kir.specs.Keeps.{Names, named_by, named_by_all, named_by_work, cut_before, pieces_of};
ghost use Rattle.ctx_plan.specs.Naming.{Leads, named_from};

use crate::holding::no_entries;
use kir::holding::lines_hold;
use kir::{Atom, Line, Work};
use std::alloc::Global;
use wg_num::Memory;

/// Where cells are named: for each cell that is named, how many were named before it; whether a cell is named in a
/// piece of the text between two cuts and in a later one; how many cells are named, and how many were at the last cut.
#[derive(Drop)]
pub struct Naming {
    pub first: Vec<Option<usize>>,
    pub across: Vec<bool>,
    pub count: usize,
    pub before: usize,
}

/// A cell is named in the present piece.
fn name_cell(naming: &mut Naming, cell: u32)
    ensures { Leads naming.old naming.new (Names cell ∷ []) }
{
    let cell = cell as usize;
    if cell < naming.first.len() && cell < naming.across.len() {
        let first = naming.first[cell];
        match first {
            None => {
                naming.first[cell] = Some(naming.count);
                naming.count = naming.count.saturating_add(1);
            }
            Some(number) => {
                if number < naming.before {
                    naming.across[cell] = true;
                }
            }
        }
    }
}

fn name_atom(naming: &mut Naming, atom: Atom)
    ensures { Leads naming.old naming.new (named_by atom) }
{
    match atom {
        Atom::Const { .. } => {}
        Atom::Cell(cell) => name_cell(naming, cell),
    }
}

fn name_atoms(naming: &mut Naming, atoms: &[Atom])
    ensures { Leads naming.old naming.new (named_by_all atoms.now) }
{
    for atom in atoms {
        name_atom(naming, *atom);
    }
}

fn name_work(naming: &mut Naming, work: &Work)
    ensures { Leads naming.old naming.new (named_by_work (work_of work.now)) }
{
    match work {
        Work::Unary { a, .. } => name_atom(naming, *a),
        Work::Binary { a, b, .. } => {
            name_atom(naming, *a);
            name_atom(naming, *b);
        }
        Work::Builtin { args, .. } => name_atoms(naming, args),
        Work::Convert { a, .. } => name_atom(naming, *a),
        Work::Ask { dim, .. } => name_atom(naming, *dim),
        Work::Argument(_) => {}
        Work::Copy(a) => name_atom(naming, *a),
    }
}

/// The text goes on behind a cut, where there is one.
fn pass_cut(naming: &mut Naming, cut: bool)
    ensures { Leads naming.old naming.new (cut_before cut []) }
{
    if cut {
        naming.before = naming.count;
    }
}

/// Whether a barrier stands among either lines.
fn either_holds(first: &[Line], second: &[Line]) -> bool
    ensures { result ≡ (holds_barrier (lines_of first.now) || holds_barrier (lines_of second.now)) }
{
    lines_hold(first) || lines_hold(second)
}

#[cycle(naming)]
fn name_lines(naming: &mut Naming, lines: &[Line])
    ensures { Leads naming.old naming.new (pieces_of (lines_of lines.now)) }
{
    for line in lines {
        name_line(naming, line);
    }
}

/// The cells that the lines of a branch, a test or a body name, behind a cut if there is one.
#[cycle(naming)]
fn name_part(naming: &mut Naming, cut: bool, lines: &[Line])
    ensures { Leads naming.old naming.new (cut_before cut (pieces_of (lines_of lines.now))) }
{
    pass_cut(naming, cut);
    name_lines(naming, lines);
}

/// The cells that a line names, and its cuts, in the order of the text.
#[cycle(naming)]
fn name_line(naming: &mut Naming, line: &Line)
    ensures { Leads naming.old naming.new (pieces_of (line_before line.now NoLine)) }
{
    match line {
        Line::Set { to, work } => {
            name_work(naming, work);
            name_cell(naming, *to);
        }
        Line::Load { to, index, .. } => {
            name_atom(naming, *index);
            name_cell(naming, *to);
        }
        Line::Store { index, from, .. } => {
            name_atom(naming, *index);
            name_atom(naming, *from);
        }
        Line::Clear { .. } => {}
        Line::If { test, yes, no, .. } => {
            let cut = either_holds(yes, no);
            pass_cut(naming, cut);
            name_atom(naming, *test);
            name_part(naming, cut, yes);
            name_part(naming, cut, no);
            pass_cut(naming, cut);
        }
        Line::Loop {
            test,
            answer,
            body,
            ..
        } => {
            let cut = either_holds(test, body);
            name_part(naming, cut, test);
            name_atom(naming, *answer);
            name_part(naming, cut, body);
            pass_cut(naming, cut);
        }
        Line::Barrier { .. } => pass_cut(naming, true),
    }
}

fn not_named(alloc: Global, cells: usize) -> Result<Vec<Option<usize>>, Memory>
    ensures { IfOk result (λ v. v.items ≡ replicate cells None) }
{
    let mut first = Vec::new(alloc);
    for _cell in 0..cells {
        if first.push(None).is_err() {
            return Err(Memory);
        }
    }
    Ok(first)
}

/// For each of so many cells whether the lines name it on both sides of a cut.
pub(crate) fn named_across(alloc: Global, cells: usize, lines: &[Line]) -> Result<Vec<bool>, Memory>
    ensures { IfOk result (λ v. v.items ≡ named_from 0 cells (pieces_of (lines_of lines.now))) }
{
    let first = not_named(alloc, cells)?;
    let across = no_entries(alloc, cells)?;
    let mut naming = Naming {
        first,
        across,
        count: 0,
        before: 0,
    };
    name_lines(&mut naming, lines);
    let Naming { across, .. } = naming;
    Ok(across)
}
