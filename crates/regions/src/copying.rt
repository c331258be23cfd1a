//! Copies of lines.

ghost use Rattle.std.specs.Prelude.{◌≡◌, [], true, IfOk, OnOk};
ghost use Rattle.kir.specs.Tree.{Lines, IfThen, LoopThen, joined_to};
ghost use Rattle.kir.specs.Listed.{line_before, lines_of, work_of};
ghost use Rattle.regions.specs.Forms.{is_plain};

use kir::{Atom, Line, Work};
use std::alloc::Global;
use wg_num::{Memory, push};

/// The same atoms.
fn copy_atoms(alloc: Global, atoms: &Vec<Atom>) -> Result<Vec<Atom>, Memory>
    ensures { IfOk result (λ copied. copied.items ≡ atoms.now.items) }
{
    match atoms.as_slice().to_vec(alloc) {
        Ok(copied) => Ok(copied),
        Err(_) => Err(Memory),
    }
}

/// The same work.
pub(crate) fn copy_work(alloc: Global, work: &Work) -> Result<Work, Memory>
    ensures { IfOk result (λ copied. work_of copied ≡ work_of work.now) }
{
    match work {
        Work::Unary { op, of, a } => Ok(Work::Unary {
            op: *op,
            of: *of,
            a: *a,
        }),
        Work::Binary { op, of, a, b } => Ok(Work::Binary {
            op: *op,
            of: *of,
            a: *a,
            b: *b,
        }),
        Work::Builtin { f, of, args } => {
            let args = copy_atoms(alloc, args)?;
            Ok(Work::Builtin {
                f: *f,
                of: *of,
                args,
            })
        }
        Work::Convert { to, a } => Ok(Work::Convert { to: *to, a: *a }),
        Work::Ask { what, dim } => Ok(Work::Ask {
            what: *what,
            dim: *dim,
        }),
        Work::Argument(number) => Ok(Work::Argument(*number)),
        Work::Copy(a) => Ok(Work::Copy(*a)),
    }
}

/// The list with an `if` more.
#[inline(never)]
fn add_if(
    copied: &mut Vec<Line>,
    site: u32,
    test: Atom,
    yes: Vec<Line>,
    no: Vec<Line>,
) -> Result<(), Memory>
    ensures { OnOk result ((rest : Lines) →
        joined_to (lines_of copied.new.items) rest ≡ joined_to (lines_of copied.old.items)
        (IfThen site test (lines_of yes.items) (lines_of no.items) rest)) }
{
    let line = Line::If {
        site,
        test,
        yes,
        no,
    };
    push(copied, line)?;
    Ok(())
}

/// The list with a loop more.
#[inline(never)]
fn add_loop(
    copied: &mut Vec<Line>,
    site: u32,
    test_first: bool,
    test: Vec<Line>,
    answer: Atom,
    body: Vec<Line>,
) -> Result<(), Memory>
    ensures { OnOk result ((rest : Lines) →
        joined_to (lines_of copied.new.items) rest ≡ joined_to (lines_of copied.old.items)
        (LoopThen site test_first (lines_of test.items) answer (lines_of body.items) rest)) }
{
    let line = Line::Loop {
        site,
        test_first,
        test,
        answer,
        body,
    };
    push(copied, line)?;
    Ok(())
}

/// The same line, of a line without lines.
fn copy_plain(alloc: Global, line: &Line) -> Result<Line, Memory>
    requires { is_plain line.now ≡ true }
    ensures { IfOk result (λ copied. (rest : Lines) → line_before copied rest ≡ line_before line.now rest) }
{
    match line {
        Line::Set { to, work } => {
            let work = copy_work(alloc, work)?;
            Ok(Line::Set { to: *to, work })
        }
        Line::Load {
            site,
            to,
            element,
            root,
            index,
        } => Ok(Line::Load {
            site: *site,
            to: *to,
            element: *element,
            root: *root,
            index: *index,
        }),
        Line::Store {
            site,
            element,
            root,
            index,
            from,
        } => Ok(Line::Store {
            site: *site,
            element: *element,
            root: *root,
            index: *index,
            from: *from,
        }),
        Line::Clear { array } => Ok(Line::Clear { array: *array }),
        Line::Barrier { site } => Ok(Line::Barrier { site: *site }),
        Line::If { .. } | Line::Loop { .. } => unreachable!(),
    }
}

/// The list with the same line more, of a line without lines.
#[inline(never)]
fn add_plain(alloc: Global, copied: &mut Vec<Line>, line: &Line) -> Result<(), Memory>
    requires { is_plain line.now ≡ true }
    ensures { OnOk result ((rest : Lines) →
        joined_to (lines_of copied.new.items) rest ≡ joined_to (lines_of copied.old.items)
        (line_before line.now rest)) }
{
    let line = copy_plain(alloc, line)?;
    push(copied, line)?;
    Ok(())
}

/// The same lines.
#[cycle(copy)]
#[inline(never)]
pub(crate) fn copy_lines(alloc: Global, lines: &[Line]) -> Result<Vec<Line>, Memory>
    ensures { IfOk result (λ copied. lines_of copied.items ≡ lines_of lines.now) }
{
    let mut copied = Vec::new(alloc);
    for line in lines {
        copy_onto(alloc, line, &mut copied)?;
    }
    Ok(copied)
}

/// The list with the same line more.
#[cycle(copy)]
#[inline(never)]
fn copy_onto(alloc: Global, line: &Line, copied: &mut Vec<Line>) -> Result<(), Memory>
    ensures { OnOk result ((rest : Lines) →
        joined_to (lines_of copied.new.items) rest ≡ joined_to (lines_of copied.old.items)
        (line_before line.now rest)) }
{
    match line {
        Line::If {
            site,
            test,
            yes,
            no,
        } => {
            let yes = copy_lines(alloc, yes)?;
            let no = copy_lines(alloc, no)?;
            add_if(copied, *site, *test, yes, no)?;
            Ok(())
        }
        Line::Loop {
            site,
            test_first,
            test,
            answer,
            body,
        } => {
            let test = copy_lines(alloc, test)?;
            let body = copy_lines(alloc, body)?;
            add_loop(copied, *site, *test_first, test, *answer, body)?;
            Ok(())
        }
        _ => {
            add_plain(alloc, copied, line)?;
            Ok(())
        }
    }
}

/// The same line.
pub(crate) fn copy_line(alloc: Global, line: &Line) -> Result<Line, Memory>
    ensures { IfOk result (λ copied. (rest : Lines) → line_before copied rest ≡ line_before line.now rest) }
{
    match line {
        Line::If {
            site,
            test,
            yes,
            no,
        } => {
            let yes = copy_lines(alloc, yes)?;
            let no = copy_lines(alloc, no)?;
            Ok(Line::If {
                site: *site,
                test: *test,
                yes,
                no,
            })
        }
        Line::Loop {
            site,
            test_first,
            test,
            answer,
            body,
        } => {
            let test = copy_lines(alloc, test)?;
            let body = copy_lines(alloc, body)?;
            Ok(Line::Loop {
                site: *site,
                test_first: *test_first,
                test,
                answer: *answer,
                body,
            })
        }
        _ => copy_plain(alloc, line),
    }
}
