//! Kernels whose constants are computed beforehand.

ghost use Rattle.std.specs.Prelude.{◌≡◌, ℕ, true, IfOk, OnOk};
ghost use Rattle.std.specs.Prelude.{Bool as Test};
ghost use Rattle.kir.specs.Tree.{Lines, NoLine, SetThen, joined_to};
ghost use Rattle.kir.specs.Listed.{line_before, lines_of, work_of};
ghost use Rattle.kir.specs.View.{kernel_of};
ghost use Rattle.kir_simplify.specs.Computable.{IsComputable, AreComputable};
ghost use Rattle.kir_simplify.specs.Faithful.{IsFaithful};
ghost use Rattle.kir_simplify.specs.Passes.{folded, folded_of, known_work};
ghost use Rattle.kir_simplify.specs.Tables.{has_no_lines, is_bare, known_by, known_in, offsets_by, once_by, unlearned};

use crate::adding::{add_if, add_line, add_loop};
use crate::offsets::{CellFacts, facts_of};
use crate::settling::{Learned, fold_work, forget, known_atom, learn};
use kir::{Atom, Kernel, Line, Work};
use std::alloc::Global;
use wg_num::Memory;

/// A line that sets a cell, folded; and what is known behind it.
fn folded_set(
    alloc: Global,
    facts: &CellFacts,
    in_loop: bool,
    known: &mut Vec<Option<Atom>>,
    trail: &mut Vec<Learned>,
    to: u32,
    work: &Work,
) -> Result<Line, Memory>
    requires { IsComputable (known_work (known_in facts.now in_loop known.old.items) (work_of work.now)) }
    ensures before { IfOk result (λ line. (c : ℕ) → unlearned trail.new.items (known_by known.new.items) c ≡
        unlearned trail.old.items (known_by known.old.items) c) }
    ensures line { IfOk result (λ line. (rest : Lines) →
        line_before line (folded (once_by facts.now) (offsets_by facts.now)
        (known_in facts.now in_loop known.new.items) rest) ≡
        folded (once_by facts.now) (offsets_by facts.now) (known_in facts.now in_loop known.old.items)
        (SetThen to (work_of work.now) rest)) }
    ensures computable { IfOk result (λ line. (rest : Lines) →
        AreComputable (once_by facts.now) (offsets_by facts.now) (known_in facts.now in_loop known.old.items)
        (SetThen to (work_of work.now) rest) →
        AreComputable (once_by facts.now) (offsets_by facts.now) (known_in facts.now in_loop known.new.items) rest) }
{
    let work = fold_work(alloc, facts, in_loop, known, work)?;
    learn(facts, known, trail, to, &work)?;
    Ok(Line::Set { to, work })
}

/// Another line without lines, where these constants are known.
fn folded_bare(facts: &CellFacts, in_loop: bool, known: &[Option<Atom>], line: &Line) -> Line
    requires { is_bare line.now ≡ true }
    ensures { (once : ℕ → Test) (offsets : ℕ → Test) (rest : Lines) →
        line_before result (folded once offsets (known_in facts.now in_loop known.now) rest) ≡
        folded once offsets (known_in facts.now in_loop known.now) (line_before line.now rest) }
{
    match line {
        Line::Load {
            site,
            to,
            element,
            root,
            index,
        } => Line::Load {
            site: *site,
            to: *to,
            element: *element,
            root: *root,
            index: known_atom(facts, in_loop, known, *index),
        },
        Line::Store {
            site,
            element,
            root,
            index,
            from,
        } => Line::Store {
            site: *site,
            element: *element,
            root: *root,
            index: known_atom(facts, in_loop, known, *index),
            from: known_atom(facts, in_loop, known, *from),
        },
        Line::Clear { array } => Line::Clear { array: *array },
        Line::Barrier { site } => Line::Barrier { site: *site },
        Line::Set { .. } | Line::If { .. } | Line::Loop { .. } => unreachable!(),
    }
}

/// The list with a line more that has no lines, folded; and what is known behind it. What it needs of
/// the stack is not needed by each loop that lines stand in.
#[inline(never)]
fn fold_plain(
    alloc: Global,
    facts: &CellFacts,
    in_loop: bool,
    known: &mut Vec<Option<Atom>>,
    trail: &mut Vec<Learned>,
    line: &Line,
    made: &mut Vec<Line>,
) -> Result<(), Memory>
    requires plain { has_no_lines line.now ≡ true }
    requires computable { AreComputable (once_by facts.now) (offsets_by facts.now)
        (known_in facts.now in_loop known.old.items) (line_before line.now NoLine) }
    ensures before { OnOk result ((c : ℕ) → unlearned trail.new.items (known_by known.new.items) c ≡
        unlearned trail.old.items (known_by known.old.items) c) }
    ensures made { OnOk result ((rest : Lines) →
        joined_to (lines_of made.new.items) (folded (once_by facts.now) (offsets_by facts.now)
        (known_in facts.now in_loop known.new.items) rest) ≡
        joined_to (lines_of made.old.items) (folded (once_by facts.now) (offsets_by facts.now)
        (known_in facts.now in_loop known.old.items) (line_before line.now rest))) }
    ensures computable { OnOk result ((rest : Lines) →
        AreComputable (once_by facts.now) (offsets_by facts.now) (known_in facts.now in_loop known.old.items)
        (line_before line.now rest) →
        AreComputable (once_by facts.now) (offsets_by facts.now) (known_in facts.now in_loop known.new.items) rest) }
{
    match line {
        Line::Set { to, work } => {
            let line = folded_set(alloc, facts, in_loop, known, trail, *to, work)?;
            add_line(made, line)?;
            Ok(())
        }
        Line::Load { .. } | Line::Store { .. } | Line::Clear { .. } | Line::Barrier { .. } => {
            let line = folded_bare(facts, in_loop, known, line);
            add_line(made, line)?;
            Ok(())
        }
        Line::If { .. } | Line::Loop { .. } => unreachable!(),
    }
}

/// The lines, where these constants are known before them. What is learned in them is forgotten behind
/// them.
#[cycle(fold)]
#[inline(never)]
fn fold_lines(
    alloc: Global,
    facts: &CellFacts,
    in_loop: bool,
    known: &mut Vec<Option<Atom>>,
    lines: &[Line],
) -> Result<Vec<Line>, Memory>
    requires { AreComputable (once_by facts.now) (offsets_by facts.now) (known_in facts.now in_loop known.old.items)
        (lines_of lines.now) }
    ensures forgotten { IfOk result (λ made. (c : ℕ) →
        known_by known.new.items c ≡ known_by known.old.items c) }
    ensures made { IfOk result (λ made. lines_of made.items ≡ folded (once_by facts.now) (offsets_by facts.now)
        (known_in facts.now in_loop known.old.items) (lines_of lines.now)) }
{
    let mut trail = Vec::new(alloc);
    let mut made = Vec::new(alloc);
    for line in lines {
        fold_onto(alloc, facts, in_loop, known, &mut trail, line, &mut made)?;
    }
    forget(known, &mut trail)?;
    Ok(made)
}

/// The list with a line more, what is known behind it, and what was learned with it.
#[cycle(fold)]
#[inline(never)]
fn fold_onto(
    alloc: Global,
    facts: &CellFacts,
    in_loop: bool,
    known: &mut Vec<Option<Atom>>,
    trail: &mut Vec<Learned>,
    line: &Line,
    made: &mut Vec<Line>,
) -> Result<(), Memory>
    requires { AreComputable (once_by facts.now) (offsets_by facts.now) (known_in facts.now in_loop known.old.items)
        (line_before line.now NoLine) }
    ensures before { OnOk result ((c : ℕ) → unlearned trail.new.items (known_by known.new.items) c ≡
        unlearned trail.old.items (known_by known.old.items) c) }
    ensures made { OnOk result ((rest : Lines) →
        joined_to (lines_of made.new.items) (folded (once_by facts.now) (offsets_by facts.now)
        (known_in facts.now in_loop known.new.items) rest) ≡
        joined_to (lines_of made.old.items) (folded (once_by facts.now) (offsets_by facts.now)
        (known_in facts.now in_loop known.old.items) (line_before line.now rest))) }
    ensures computable { OnOk result ((rest : Lines) →
        AreComputable (once_by facts.now) (offsets_by facts.now) (known_in facts.now in_loop known.old.items)
        (line_before line.now rest) →
        AreComputable (once_by facts.now) (offsets_by facts.now) (known_in facts.now in_loop known.new.items) rest) }
{
    match line {
        Line::If {
            site,
            test,
            yes,
            no,
        } => {
            let test = known_atom(facts, in_loop, known, *test);
            let yes = fold_lines(alloc, facts, in_loop, known, yes)?;
            let no = fold_lines(alloc, facts, in_loop, known, no)?;
            add_if(made, *site, test, yes, no)?;
        }
        Line::Loop {
            site,
            test_first,
            test,
            answer,
            body,
        } => {
            let answer = known_atom(facts, true, known, *answer);
            let test = fold_lines(alloc, facts, true, known, test)?;
            let body = fold_lines(alloc, facts, true, known, body)?;
            add_loop(made, *site, *test_first, test, answer, body)?;
        }
        Line::Set { .. }
        | Line::Load { .. }
        | Line::Store { .. }
        | Line::Clear { .. }
        | Line::Barrier { .. } => {
            fold_plain(alloc, facts, in_loop, known, trail, line, made)?;
        }
    }
    Ok(())
}

/// The kernel's lines, folded.
fn folded_body(alloc: Global, kernel: &Kernel) -> Result<Vec<Line>, Memory>
    ensures { IfOk result (λ body. lines_of body.items ≡ (folded_of (kernel_of kernel.now)).body) }
{
    let facts = facts_of(alloc, kernel)?;
    let mut known = Vec::new(alloc);
    let body = fold_lines(alloc, &facts, false, &mut known, &kernel.body)?;
    Ok(body)
}

/// The kernel with what is computed of constants alone computed beforehand, and with constants in
/// place of the cells that stand for them; in loops a pointer that is a parameter stands for the offset
/// 0, which each launch binds to it (OpenCL 1.2, 5.7.2). Memory where it was refused.
pub fn fold(alloc: Global, kernel: Kernel) -> Result<Kernel, Memory>
    ensures exact { IfOk result (λ k. kernel_of k ≡ folded_of (kernel_of kernel)) }
    ensures faithful { IfOk result (λ k. IsFaithful (kernel_of kernel) (kernel_of k)) }
{
    let body = folded_body(alloc, &kernel)?;
    Ok(Kernel {
        params: kernel.params,
        cells: kernel.cells,
        arrays: kernel.arrays,
        tables: kernel.tables,
        body,
        sites: kernel.sites,
    })
}
