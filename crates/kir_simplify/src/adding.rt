//! Lists of lines with a line more, and copies of lines without lines.

ghost use Rattle.std.specs.Prelude.{◌≡◌, true, IfOk, OnOk};
ghost use Rattle.kir.specs.Tree.{Lines, IfThen, LoopThen, joined_to};
ghost use Rattle.kir.specs.Listed.{line_before, lines_of, work_of};
ghost use Rattle.kir_simplify.specs.Tables.{has_no_lines};

use kir::{Atom, Line, Work};
use std::alloc::Global;
use wg_num::{Memory, copy_list, push};

/// The same work.
pub(crate) fn copy_work(alloc: Global, work: &Work) -> Result<Work, Memory>
    ensures { IfOk result (λ copied. work_of copied ≡ work_of work.now) }
{
    match work {
        Work::Unary { op, of, a } => Ok(Work::Unary {
            op: *op,
            of: *of,
            a: *a,
        }),
        Work::Binary { op, of, a, b } => Ok(Work::Binary {
            op: *op,
            of: *of,
            a: *a,
            b: *b,
        }),
        Work::Builtin { f, of, args } => {
            let args = copy_list(alloc, args)?;
            Ok(Work::Builtin {
                f: *f,
                of: *of,
                args,
            })
        }
        Work::Convert { to, a } => Ok(Work::Convert { to: *to, a: *a }),
        Work::Ask { what, dim } => Ok(Work::Ask {
            what: *what,
            dim: *dim,
        }),
        Work::Argument(number) => Ok(Work::Argument(*number)),
        Work::Copy(a) => Ok(Work::Copy(*a)),
    }
}

/// The same line, of a line without lines.
pub(crate) fn copy_plain(alloc: Global, line: &Line) -> Result<Line, Memory>
    requires { has_no_lines line.now ≡ true }
    ensures { IfOk result (λ copied. (rest : Lines) → line_before copied rest ≡ line_before line.now rest) }
{
    match line {
        Line::Set { to, work } => {
            let work = copy_work(alloc, work)?;
            Ok(Line::Set { to: *to, work })
        }
        Line::Load {
            site,
            to,
            element,
            root,
            index,
        } => Ok(Line::Load {
            site: *site,
            to: *to,
            element: *element,
            root: *root,
            index: *index,
        }),
        Line::Store {
            site,
            element,
            root,
            index,
            from,
        } => Ok(Line::Store {
            site: *site,
            element: *element,
            root: *root,
            index: *index,
            from: *from,
        }),
        Line::Clear { array } => Ok(Line::Clear { array: *array }),
        Line::Barrier { site } => Ok(Line::Barrier { site: *site }),
        Line::If { .. } | Line::Loop { .. } => unreachable!(),
    }
}

/// The list with a line more.
#[inline(never)]
pub(crate) fn add_line(lines: &mut Vec<Line>, line: Line) -> Result<(), Memory>
    ensures { OnOk result ((rest : Lines) →
        joined_to (lines_of lines.new.items) rest ≡ joined_to (lines_of lines.old.items) (line_before line rest)) }
{
    push(lines, line)?;
    Ok(())
}

/// The list with an `if` more.
#[inline(never)]
pub(crate) fn add_if(
    lines: &mut Vec<Line>,
    site: u32,
    test: Atom,
    yes: Vec<Line>,
    no: Vec<Line>,
) -> Result<(), Memory>
    ensures { OnOk result ((rest : Lines) →
        joined_to (lines_of lines.new.items) rest ≡ joined_to (lines_of lines.old.items)
        (IfThen site test (lines_of yes.items) (lines_of no.items) rest)) }
{
    let line = Line::If {
        site,
        test,
        yes,
        no,
    };
    push(lines, line)?;
    Ok(())
}

/// The list with a loop more.
#[inline(never)]
pub(crate) fn add_loop(
    lines: &mut Vec<Line>,
    site: u32,
    test_first: bool,
    test: Vec<Line>,
    answer: Atom,
    body: Vec<Line>,
) -> Result<(), Memory>
    ensures { OnOk result ((rest : Lines) →
        joined_to (lines_of lines.new.items) rest ≡ joined_to (lines_of lines.old.items)
        (LoopThen site test_first (lines_of test.items) answer (lines_of body.items) rest)) }
{
    let line = Line::Loop {
        site,
        test_first,
        test,
        answer,
        body,
    };
    push(lines, line)?;
    Ok(())
}
