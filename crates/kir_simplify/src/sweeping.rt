//! Kernels without the values that no line reads.

ghost use Rattle.std.specs.Prelude.{◌≡◌, true, IfOk, OnOk};
ghost use Rattle.kir.specs.Tree.{Lines, joined_to};
ghost use Rattle.kir.specs.Listed.{line_before, lines_of};
ghost use Rattle.kir.specs.View.{kernel_of};
ghost use Rattle.kir_simplify.specs.Faithful.{IsFaithful};
ghost use Rattle.kir_simplify.specs.Passes.{swept, swept_of};
ghost use Rattle.kir_simplify.specs.Tables.{has_no_lines, listed, maybe_before};

use crate::adding::{add_if, add_line, add_loop, copy_work};
use crate::reading::{is_listed, unread_cells};
use kir::{Kernel, Line};
use std::alloc::Global;
use wg_num::Memory;

/// What is left of a line without lines.
fn left_of(alloc: Global, unread: &[bool], line: &Line) -> Result<Option<Line>, Memory>
    requires { has_no_lines line.now ≡ true }
    ensures { IfOk result (λ left. (rest : Lines) →
        maybe_before left (swept (listed unread.now) rest) ≡ swept (listed unread.now) (line_before line.now rest)) }
{
    match line {
        Line::Set { to, work } => {
            if is_listed(unread, *to) {
                return Ok(None);
            }
            let work = copy_work(alloc, work)?;
            Ok(Some(Line::Set { to: *to, work }))
        }
        Line::Load {
            site,
            to,
            element,
            root,
            index,
        } => Ok(Some(Line::Load {
            site: *site,
            to: *to,
            element: *element,
            root: *root,
            index: *index,
        })),
        Line::Store {
            site,
            element,
            root,
            index,
            from,
        } => Ok(Some(Line::Store {
            site: *site,
            element: *element,
            root: *root,
            index: *index,
            from: *from,
        })),
        Line::Clear { array } => Ok(Some(Line::Clear { array: *array })),
        Line::Barrier { site } => Ok(Some(Line::Barrier { site: *site })),
        Line::If { .. } | Line::Loop { .. } => unreachable!(),
    }
}

/// The list with what is left of a line without lines.
#[inline(never)]
fn sweep_plain(
    alloc: Global,
    unread: &[bool],
    line: &Line,
    kept: &mut Vec<Line>,
) -> Result<(), Memory>
    requires { has_no_lines line.now ≡ true }
    ensures { OnOk result ((rest : Lines) →
        joined_to (lines_of kept.new.items) (swept (listed unread.now) rest) ≡
        joined_to (lines_of kept.old.items) (swept (listed unread.now) (line_before line.now rest))) }
{
    match left_of(alloc, unread, line)? {
        None => Ok(()),
        Some(line) => add_line(kept, line),
    }
}

/// The lines without those that set a listed cell.
#[cycle(sweep)]
#[inline(never)]
fn sweep_lines(alloc: Global, unread: &[bool], lines: &[Line]) -> Result<Vec<Line>, Memory>
    ensures { IfOk result (λ kept. lines_of kept.items ≡ swept (listed unread.now) (lines_of lines.now)) }
{
    let mut kept = Vec::new(alloc);
    for line in lines {
        sweep_onto(alloc, unread, line, &mut kept)?;
    }
    Ok(kept)
}

/// The list with what is left of a line.
#[cycle(sweep)]
#[inline(never)]
fn sweep_onto(
    alloc: Global,
    unread: &[bool],
    line: &Line,
    kept: &mut Vec<Line>,
) -> Result<(), Memory>
    ensures { OnOk result ((rest : Lines) →
        joined_to (lines_of kept.new.items) (swept (listed unread.now) rest) ≡
        joined_to (lines_of kept.old.items) (swept (listed unread.now) (line_before line.now rest))) }
{
    match line {
        Line::If {
            site,
            test,
            yes,
            no,
        } => {
            let yes = sweep_lines(alloc, unread, yes)?;
            let no = sweep_lines(alloc, unread, no)?;
            add_if(kept, *site, *test, yes, no)?;
            Ok(())
        }
        Line::Loop {
            site,
            test_first,
            test,
            answer,
            body,
        } => {
            let test = sweep_lines(alloc, unread, test)?;
            let body = sweep_lines(alloc, unread, body)?;
            add_loop(kept, *site, *test_first, test, *answer, body)?;
            Ok(())
        }
        Line::Set { .. }
        | Line::Load { .. }
        | Line::Store { .. }
        | Line::Clear { .. }
        | Line::Barrier { .. } => {
            sweep_plain(alloc, unread, line, kept)?;
            Ok(())
        }
    }
}

/// The kernel's lines without those that set an unread value.
fn swept_body(alloc: Global, kernel: &Kernel) -> Result<Vec<Line>, Memory>
    ensures { IfOk result (λ body. lines_of body.items ≡ (swept_of (kernel_of kernel.now)).body) }
{
    let unread = unread_cells(alloc, kernel)?;
    let body = sweep_lines(alloc, &unread, &kernel.body)?;
    Ok(body)
}

/// The kernel without the lines that set a value on the way which no line reads. Memory where it was
/// refused.
pub fn sweep(alloc: Global, kernel: Kernel) -> Result<Kernel, Memory>
    ensures exact { IfOk result (λ k. kernel_of k ≡ swept_of (kernel_of kernel)) }
    ensures faithful { IfOk result (λ k. IsFaithful (kernel_of kernel) (kernel_of k)) }
{
    let body = swept_body(alloc, &kernel)?;
    Ok(Kernel {
        params: kernel.params,
        cells: kernel.cells,
        arrays: kernel.arrays,
        tables: kernel.tables,
        body,
        sites: kernel.sites,
    })
}
