//! Lines, under the mask of the lanes that execute them.

ghost use Rattle.std.specs.Prelude.{◌≡◌, ◌++◌, true, length, IfOk, OnOk, if◌then◌else◌};
ghost use Rattle.kir.specs.Tree.{Lines, NoLine};
ghost use Rattle.kir.specs.Listed.{line_before, lines_of};
ghost use Rattle.mask_lower.specs.Atoms.{atoms_in};
ghost use Rattle.regions.specs.Forms.{is_plain};
ghost use Rattle.mask_lower.specs.Forms.{is_if, is_loop};
ghost use Rattle.mask_lower.specs.Registers.{frame_of, past};
ghost use Rattle.mask_lower.specs.Lowered as spec;

use crate::masks::{lower_test, lower_turn, place, put_and, put_less, put_skip, skip_to_end};
use crate::placing::{array_at, cell_at, read, root_at};
use crate::registers::{Free, Layout, mask_reg, more};
use crate::work::lower_work;
use kir::Line;
use lane_code::Step;
use wg_num::{Memory, push};

/// Where lines are lowered: the number of the mask of the active lanes, that of the first mask that is not in use,
/// and the first registers that are free for constants.
#[derive(Clone, Copy)]
pub struct Scope {
    pub mask: u32,
    pub free: u32,
    pub next: Free,
}

/// A line without lines in it; the registers that are free for constants behind it.
fn lower_plain(
    code: &mut Vec<Step>,
    line: &Line,
    layout: &Layout,
    at: Scope,
) -> Result<Free, Memory>
    requires { is_plain line.now ≡ true }
    ensures code { IfOk result (λ after. (rest : Lines) →
        code.old.items ++ spec.lines_code (frame_of layout.now) at.mask at.free (length code.old.items) at.next
        (line_before line.now rest) ≡ code.new.items ++ spec.lines_code (frame_of layout.now) at.mask at.free
        (length code.new.items) after rest) }
    ensures next { IfOk result (λ after. (rest : Lines) → past at.next (atoms_in (line_before line.now rest)) ≡
        past after (atoms_in rest)) }
{
    let mask = mask_reg(at.mask);
    match line {
        Line::Set { to, work } => {
            let to = cell_at(&layout.cells, *to);
            let next = lower_work(code, layout, at.next, to.at, mask, work)?;
            Ok(next)
        }
        Line::Load {
            site,
            to,
            element,
            root,
            index,
        } => {
            let to = cell_at(&layout.cells, *to);
            let (index, next) = read(&layout.cells, at.next, *index)?;
            let root = root_at(&layout.arrays, *root);
            push(
                code,
                Step::Load {
                    site: *site,
                    of: *element,
                    root,
                    index: index.at,
                    to: to.at,
                    mask,
                },
            )?;
            Ok(next)
        }
        Line::Store {
            site,
            element,
            root,
            index,
            from,
        } => {
            let (index, next) = read(&layout.cells, at.next, *index)?;
            let (from, next) = read(&layout.cells, next, *from)?;
            let root = root_at(&layout.arrays, *root);
            push(
                code,
                Step::Store {
                    site: *site,
                    of: *element,
                    root,
                    index: index.at,
                    from: from.at,
                    mask,
                },
            )?;
            Ok(next)
        }
        Line::Clear { array } => {
            let array = array_at(&layout.arrays, *array);
            push(code, Step::Clear { array, mask })?;
            Ok(at.next)
        }
        Line::Barrier { site } => {
            push(code, Step::Mark { site: *site, mask })?;
            Ok(at.next)
        }
        Line::If { .. } | Line::Loop { .. } => unreachable!(),
    }
}

/// Whether there are no lines.
fn is_no_line(lines: &Vec<Line>) -> bool
    ensures { result ≡ spec.is_no_line (lines_of lines.now.items) }
{
    lines.is_empty()
}

/// Lines; the registers that are free for constants behind them.
#[cycle(lines)]
pub(crate) fn lower_lines(
    code: &mut Vec<Step>,
    lines: &Vec<Line>,
    layout: &Layout,
    at: Scope,
) -> Result<Free, Memory>
    ensures code { OnOk result (code.new.items ≡ code.old.items ++ spec.lines_code (frame_of layout.now) at.mask
        at.free (length code.old.items) at.next (lines_of lines.now.items)) }
    ensures next { IfOk result (λ after. after ≡ past at.next (atoms_in (lines_of lines.now.items))) }
{
    let mut next = at.next;
    for line in lines {
        let here = Scope {
            mask: at.mask,
            free: at.free,
            next,
        };
        next = lower_line(code, line, layout, here)?;
    }
    Ok(next)
}

/// A line; the registers that are free for constants behind it.
#[cycle(lines)]
fn lower_line(code: &mut Vec<Step>, line: &Line, layout: &Layout, at: Scope) -> Result<Free, Memory>
    ensures code { IfOk result (λ after. (rest : Lines) →
        code.old.items ++ spec.lines_code (frame_of layout.now) at.mask at.free (length code.old.items) at.next
        (line_before line.now rest) ≡ code.new.items ++ spec.lines_code (frame_of layout.now) at.mask at.free
        (length code.new.items) after rest) }
    ensures next { IfOk result (λ after. (rest : Lines) → past at.next (atoms_in (line_before line.now rest)) ≡
        past after (atoms_in rest)) }
{
    match line {
        Line::If { .. } => lower_if(code, line, layout, at),
        Line::Loop { .. } => lower_loop(code, line, layout, at),
        Line::Set { .. }
        | Line::Load { .. }
        | Line::Store { .. }
        | Line::Clear { .. }
        | Line::Barrier { .. } => lower_plain(code, line, layout, at),
    }
}

/// An `if`: a branch under the mask of the lanes whose test is not 0, the other under that of the
/// rest.
#[cycle(lines)]
fn lower_if(code: &mut Vec<Step>, line: &Line, layout: &Layout, at: Scope) -> Result<Free, Memory>
    requires { is_if line.now ≡ true }
    ensures code { IfOk result (λ after. (rest : Lines) →
        code.old.items ++ spec.lines_code (frame_of layout.now) at.mask at.free (length code.old.items) at.next
        (line_before line.now rest) ≡ code.new.items ++ spec.lines_code (frame_of layout.now) at.mask at.free
        (length code.new.items) after rest) }
    ensures next { IfOk result (λ after. (rest : Lines) → past at.next (atoms_in (line_before line.now rest)) ≡
        past after (atoms_in rest)) }
{
    let Line::If { test, yes, no, .. } = line else {
        unreachable!();
    };
    let next = lower_test(code, layout, at.next, *test, at.free, at.mask)?;
    let free = more(at.free, 1)?;
    let chosen = Scope {
        mask: at.free,
        free,
        next,
    };
    let behind = lower_branch(code, yes, layout, chosen)?;
    let other = Scope {
        mask: at.free,
        free,
        next: behind,
    };
    let after = lower_other(code, no, layout, at.mask, other)?;
    Ok(after)
}

/// The code of a branch, passed over where no lane takes it; nothing for a branch without lines.
#[cycle(lines)]
fn lower_branch(
    code: &mut Vec<Step>,
    lines: &Vec<Line>,
    layout: &Layout,
    at: Scope,
) -> Result<Free, Memory>
    ensures code { OnOk result (code.new.items ≡ code.old.items ++ spec.branch_code (frame_of layout.now) at.mask
        at.free (length code.old.items) at.next (lines_of lines.now.items)) }
    ensures next { IfOk result (λ after. after ≡ past at.next (atoms_in (lines_of lines.now.items))) }
{
    if is_no_line(lines) {
        return Ok(at.next);
    }
    let skip = code.len();
    put_skip(code, at.mask)?;
    let next = lower_lines(code, lines, layout, at)?;
    skip_to_end(code, skip, at.mask)?;
    Ok(next)
}

/// The same for the lanes of `outer` that are not in the mask.
#[cycle(lines)]
fn lower_other(
    code: &mut Vec<Step>,
    lines: &Vec<Line>,
    layout: &Layout,
    outer: u32,
    at: Scope,
) -> Result<Free, Memory>
    ensures code { OnOk result (code.new.items ≡ code.old.items ++ spec.other_code (frame_of layout.now) outer
        at.mask at.free (length code.old.items) at.next (lines_of lines.now.items)) }
    ensures next { IfOk result (λ after. after ≡ past at.next (atoms_in (lines_of lines.now.items))) }
{
    if is_no_line(lines) {
        return Ok(at.next);
    }
    put_less(code, at.mask, outer, at.mask)?;
    let next = lower_branch(code, lines, layout, at)?;
    Ok(next)
}

/// Where a loop is entered: at its test, or at its `Turn`.
fn entry_of(test_first: bool, test_at: u32, turn_at: u32) -> u32
    ensures { result ≡ (if test_first then test_at else turn_at) }
{
    if test_first { test_at } else { turn_at }
}

/// A loop: its lanes have a mask of their own, from which those are taken that are done.
#[cycle(lines)]
fn lower_loop(code: &mut Vec<Step>, line: &Line, layout: &Layout, at: Scope) -> Result<Free, Memory>
    requires { is_loop line.now ≡ true }
    ensures code { IfOk result (λ after. (rest : Lines) →
        code.old.items ++ spec.lines_code (frame_of layout.now) at.mask at.free (length code.old.items) at.next
        (line_before line.now rest) ≡ code.new.items ++ spec.lines_code (frame_of layout.now) at.mask at.free
        (length code.new.items) after rest) }
    ensures next { IfOk result (λ after. (rest : Lines) → past at.next (atoms_in (line_before line.now rest)) ≡
        past after (atoms_in rest)) }
{
    let Line::Loop {
        test_first,
        test,
        answer,
        body,
        ..
    } = line
    else {
        unreachable!();
    };
    let free = more(at.free, 1)?;
    put_and(code, at.free, at.mask, at.mask)?;
    let jump = code.len();
    push(code, Step::Jump { target: 0 })?;
    let start = place(code)?;
    let mut inner = Scope {
        mask: at.free,
        free,
        next: at.next,
    };
    inner.next = lower_lines(code, body, layout, inner)?;
    let test_at = place(code)?;
    inner.next = lower_lines(code, test, layout, inner)?;
    let (turn_at, after) = lower_turn(code, layout, inner.next, *answer, at.free, start)?;
    code[jump] = Step::Jump {
        target: entry_of(*test_first, test_at, turn_at),
    };
    Ok(after)
}

/// The rest of a loop for the lanes that have voted for another iteration; the registers that are
/// free for constants behind it.
pub(crate) fn lower_rest(
    code: &mut Vec<Step>,
    line: &Line,
    layout: &Layout,
    next: Free,
) -> Result<Free, Memory>
    requires { is_loop line.now ≡ true }
    ensures code { OnOk result (code.new.items ≡ code.old.items ++ spec.begun_code (frame_of layout.now)
        (length code.old.items) next true (line_before line.now NoLine)) }
    ensures next { IfOk result (λ after. after ≡ past next (atoms_in (line_before line.now NoLine))) }
{
    let Line::Loop {
        test,
        answer,
        body,
        ..
    } = line
    else {
        unreachable!();
    };
    push(code, Step::VoteGet { to: mask_reg(1) })?;
    put_and(code, 1, 0, 1)?;
    let jump = code.len();
    push(code, Step::Jump { target: 0 })?;
    let start = place(code)?;
    let mut inner = Scope {
        mask: 1,
        free: 2,
        next,
    };
    inner.next = lower_lines(code, body, layout, inner)?;
    inner.next = lower_lines(code, test, layout, inner)?;
    let (turn_at, after) = lower_turn(code, layout, inner.next, *answer, 1, start)?;
    code[jump] = Step::Jump { target: turn_at };
    Ok(after)
}
