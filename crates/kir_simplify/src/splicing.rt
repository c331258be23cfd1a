//! Kernels in which no constant chooses a branch.

ghost use Rattle.std.specs.Prelude.{◌≡◌, true, IfOk, OnOk};
ghost use Rattle.cl_model.specs.Values.{is_zero};
ghost use Rattle.kir.specs.Tree.{Lines, joined_to};
ghost use Rattle.kir.specs.Listed.{line_before, lines_of};
ghost use Rattle.kir.specs.View.{kernel_of};
ghost use Rattle.kir_simplify.specs.Faithful.{IsFaithful};
ghost use Rattle.kir_simplify.specs.Passes.{spliced, spliced_of};
ghost use Rattle.kir_simplify.specs.Tables.{decision, has_no_lines};

use crate::adding::{add_if, add_line, add_loop, copy_plain};
use kir::holding::lines_hold;
use kir::{Atom, Kernel, Line};
use std::alloc::Global;
use wg_num::Memory;

fn is_zero(value: i128) -> bool
    ensures { result ≡ is_zero value }
{
    value == 0
}

/// Whether a constant chooses the other branch, where one chooses and neither holds a barrier.
fn decision(test: Atom, yes: &[Line], no: &[Line]) -> Option<bool>
    ensures { result ≡ decision test (lines_of yes.now) (lines_of no.now) }
{
    match test {
        Atom::Cell(_) => None,
        Atom::Const { value, .. } => {
            if lines_hold(yes) {
                None
            } else if lines_hold(no) {
                None
            } else {
                Some(is_zero(value))
            }
        }
    }
}

/// The list with a line without lines more.
#[inline(never)]
fn splice_plain(alloc: Global, line: &Line, kept: &mut Vec<Line>) -> Result<(), Memory>
    requires { has_no_lines line.now ≡ true }
    ensures { OnOk result ((rest : Lines) →
        joined_to (lines_of kept.new.items) (spliced rest) ≡
        joined_to (lines_of kept.old.items) (spliced (line_before line.now rest))) }
{
    let line = copy_plain(alloc, line)?;
    add_line(kept, line)?;
    Ok(())
}

/// The list with the lines more, in which no constant chooses a branch.
#[cycle(splice)]
#[inline(never)]
fn splice_each(alloc: Global, lines: &[Line], kept: &mut Vec<Line>) -> Result<(), Memory>
    ensures { OnOk result (lines_of kept.new.items ≡
        joined_to (lines_of kept.old.items) (spliced (lines_of lines.now))) }
{
    for line in lines {
        splice_onto(alloc, line, kept)?;
    }
    Ok(())
}

/// The lines in which no constant chooses a branch.
#[cycle(splice)]
#[inline(never)]
fn splice_lines(alloc: Global, lines: &[Line]) -> Result<Vec<Line>, Memory>
    ensures { IfOk result (λ kept. lines_of kept.items ≡ spliced (lines_of lines.now)) }
{
    let mut kept = Vec::new(alloc);
    splice_each(alloc, lines, &mut kept)?;
    Ok(kept)
}

/// The list with what becomes of a line.
#[cycle(splice)]
#[inline(never)]
fn splice_onto(alloc: Global, line: &Line, kept: &mut Vec<Line>) -> Result<(), Memory>
    ensures { OnOk result ((rest : Lines) →
        joined_to (lines_of kept.new.items) (spliced rest) ≡
        joined_to (lines_of kept.old.items) (spliced (line_before line.now rest))) }
{
    match line {
        Line::If {
            site,
            test,
            yes,
            no,
        } => match decision(*test, yes, no) {
            Some(true) => {
                splice_each(alloc, no, kept)?;
                Ok(())
            }
            Some(false) => {
                splice_each(alloc, yes, kept)?;
                Ok(())
            }
            None => {
                let yes = splice_lines(alloc, yes)?;
                let no = splice_lines(alloc, no)?;
                add_if(kept, *site, *test, yes, no)?;
                Ok(())
            }
        },
        Line::Loop {
            site,
            test_first,
            test,
            answer,
            body,
        } => {
            let test = splice_lines(alloc, test)?;
            let body = splice_lines(alloc, body)?;
            add_loop(kept, *site, *test_first, test, *answer, body)?;
            Ok(())
        }
        Line::Set { .. }
        | Line::Load { .. }
        | Line::Store { .. }
        | Line::Clear { .. }
        | Line::Barrier { .. } => {
            splice_plain(alloc, line, kept)?;
            Ok(())
        }
    }
}

/// The kernel's lines, in which no constant chooses a branch.
fn spliced_body(alloc: Global, kernel: &Kernel) -> Result<Vec<Line>, Memory>
    ensures { IfOk result (λ body. lines_of body.items ≡ (spliced_of (kernel_of kernel.now)).body) }
{
    let body = splice_lines(alloc, &kernel.body)?;
    Ok(body)
}

/// The kernel with the lines of the branch that a constant chooses in place of each such `if` that
/// holds no barrier. Memory where it was refused.
pub fn splice(alloc: Global, kernel: Kernel) -> Result<Kernel, Memory>
    ensures exact { IfOk result (λ k. kernel_of k ≡ spliced_of (kernel_of kernel)) }
    ensures faithful { IfOk result (λ k. IsFaithful (kernel_of kernel) (kernel_of k)) }
{
    let body = spliced_body(alloc, &kernel)?;
    Ok(Kernel {
        params: kernel.params,
        cells: kernel.cells,
        arrays: kernel.arrays,
        tables: kernel.tables,
        body,
        sites: kernel.sites,
    })
}
