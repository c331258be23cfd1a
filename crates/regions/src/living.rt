//! Which cells are live before lines, for all cells at once.

ghost use Rattle.std.specs.Prelude.{◌≡◌, ◌∷◌, [], ◌++◌, ◌||◌, ◌&&◌, not, nat_eq, true, false};
ghost use Rattle.std.specs.Prelude.{IfOk, OnOk, replicate, length, slice_index_or};
ghost use Rattle.kir.specs.Tree.{Lines, NoLine};
ghost use Rattle.kir.specs.Listed.{line_before, lines_of, work_of};
ghost use Rattle.kir.specs.Live.{reads, some_reads, work_reads};
ghost use Rattle.regions.specs.Living.{those_of, Becomes, IsPassing, through, before_if, before_answer, before_loop};

use kir::{Atom, Line, Work};
use std::alloc::Global;
use wg_num::{Memory, push};

/// What lines make of the cells that are live behind them: whether each cell is live before the
/// lines where it is dead behind them, and where it is live there.
#[derive(Drop)]
pub(crate) struct Passing {
    pub(crate) dead: Vec<bool>,
    pub(crate) live: Vec<bool>,
}

/// So many cells, all live or all dead.
pub(crate) fn all_cells(alloc: Global, cells: u32, live: bool) -> Result<Vec<bool>, Memory>
    ensures { IfOk result (λ set. set.items ≡ replicate cells live) }
{
    let mut set = Vec::new(alloc);
    for _cell in 0..cells {
        push(&mut set, live)?;
    }
    Ok(set)
}

/// The same cells.
pub(crate) fn copy_cells(alloc: Global, set: &[bool]) -> Result<Vec<bool>, Memory>
    ensures { IfOk result (λ copied. copied.items ≡ set.now) }
{
    match set.to_vec(alloc) {
        Ok(copied) => Ok(copied),
        Err(_) => Err(Memory),
    }
}

/// The entry of a set with this number; dead where there is none.
fn entry(set: &[bool], cell: usize) -> bool
    ensures { result ≡ slice_index_or set.now cell false }
{
    match set.get(cell) {
        Some(live) => *live,
        None => false,
    }
}

/// The numbers of those of so many cells that are live.
pub(crate) fn listed_cells(alloc: Global, cells: u32, set: &[bool]) -> Result<Vec<u32>, Memory>
    ensures { IfOk result (λ list. list.items ≡ those_of cells set.now) }
{
    let mut list = Vec::new(alloc);
    for cell in 0..cells {
        if entry(set, cell as usize) {
            push(&mut list, cell)?;
        }
    }
    Ok(list)
}

/// A cell that is set is dead before that.
fn kill(set: &mut [bool], cell: u32)
    ensures { Becomes set.old set.new (λ c live. not (nat_eq c cell) && live) }
{
    let cell = cell as usize;
    if cell < set.len() {
        set[cell] = false;
    }
}

/// The cell of an atom that is read is live before that.
pub(crate) fn mark(set: &mut [bool], atom: Atom)
    ensures { Becomes set.old set.new (λ c live. reads c atom || live) }
{
    match atom {
        Atom::Const { .. } => {}
        Atom::Cell(cell) => {
            let cell = cell as usize;
            if cell < set.len() {
                set[cell] = true;
            }
        }
    }
}

/// So are those of atoms.
fn mark_atoms(set: &mut [bool], atoms: &[Atom])
    ensures { Becomes set.old set.new (λ c live. some_reads c atoms.now || live) }
{
    for atom in atoms {
        mark(set, *atom);
    }
}

/// So are those from which a line computes.
fn mark_work(set: &mut [bool], work: &Work)
    ensures { Becomes set.old set.new (λ c live. work_reads c (work_of work.now) || live) }
{
    match work {
        Work::Unary { a, .. } => mark(set, *a),
        Work::Binary { a, b, .. } => {
            mark(set, *b);
            mark(set, *a);
        }
        Work::Builtin { args, .. } => mark_atoms(set, args),
        Work::Convert { a, .. } => mark(set, *a),
        Work::Ask { dim, .. } => mark(set, *dim),
        Work::Argument(_) => {}
        Work::Copy(a) => mark(set, *a),
    }
}

/// Those that are live before lines, where the set has those that are live behind them.
pub(crate) fn pass(set: &mut [bool], lines: &Passing)
    ensures { Becomes set.old set.new (through lines.now.dead.items lines.now.live.items) }
{
    for i in 0..set.len() {
        if set[i] {
            set[i] = entry(&lines.live, i);
        } else {
            set[i] = entry(&lines.dead, i);
        }
    }
}

/// Those of either set.
pub(crate) fn unite(set: &mut [bool], other: &[bool])
    ensures { Becomes set.old set.new (λ c live. live || slice_index_or other.now c false) }
{
    for i in 0..set.len() {
        if entry(other, i) {
            set[i] = true;
        }
    }
}

/// The cells that are live before lines.
pub(crate) fn live_before(
    alloc: Global,
    after: &[bool],
    lines: &Passing,
) -> Result<Vec<bool>, Memory>
    ensures { IfOk result (λ set. Becomes after.now set.items (through lines.now.dead.items lines.now.live.items)) }
{
    let mut set = copy_cells(alloc, after)?;
    pass(&mut set, lines);
    Ok(set)
}

/// The cells that are live in either set.
pub(crate) fn live_in_either(
    alloc: Global,
    set: &[bool],
    other: &[bool],
) -> Result<Vec<bool>, Memory>
    ensures { IfOk result (λ either. Becomes set.now either.items (λ c live. live ||
        slice_index_or other.now c false)) }
{
    let mut either = copy_cells(alloc, set)?;
    unite(&mut either, other);
    Ok(either)
}

/// The cells that are live before an `if`.
fn live_before_if(
    alloc: Global,
    after: &[bool],
    test: Atom,
    yes: &Passing,
    no: &Passing,
) -> Result<Vec<bool>, Memory>
    ensures { IfOk result (λ set. Becomes after.now set.items (before_if test yes.now.dead.items yes.now.live.items
        no.now.dead.items no.now.live.items)) }
{
    let chosen = live_before(alloc, after, yes)?;
    let other = live_before(alloc, after, no)?;
    let mut either = live_in_either(alloc, &chosen, &other)?;
    mark(&mut either, test);
    Ok(either)
}

/// The cells that are live at the answer of a loop, where those are given that are live behind it:
/// the answer is read, and the way leads on behind the loop, or through its body and its test.
pub(crate) fn live_at_answer(
    alloc: Global,
    after: &[bool],
    test: &Passing,
    answer: Atom,
    body: &Passing,
) -> Result<Vec<bool>, Memory>
    ensures { IfOk result (λ set. length test.now.dead.items ≡ length after.now →
        Becomes after.now set.items (before_answer test.now.dead.items answer body.now.dead.items
        body.now.live.items)) }
{
    let round = live_before(alloc, &test.dead, body)?;
    let mut either = live_in_either(alloc, after, &round)?;
    mark(&mut either, answer);
    Ok(either)
}

/// The cells that are live before a loop.
fn live_before_loop(
    alloc: Global,
    after: &[bool],
    test_first: bool,
    test: &Passing,
    answer: Atom,
    body: &Passing,
) -> Result<Vec<bool>, Memory>
    ensures { IfOk result (λ set. length test.now.dead.items ≡ length after.now →
        Becomes after.now set.items (before_loop test_first test.now.dead.items test.now.live.items answer
        body.now.dead.items body.now.live.items)) }
{
    let at_answer = live_at_answer(alloc, after, test, answer, body)?;
    let before_test = live_before(alloc, &at_answer, test)?;
    if test_first {
        return Ok(before_test);
    }
    live_before(alloc, &before_test, body)
}

/// What no lines make of so many cells.
pub(crate) fn pass_none(alloc: Global, cells: u32) -> Result<Passing, Memory>
    ensures { IfOk result (λ p. IsPassing cells NoLine p.dead.items p.live.items) }
{
    let dead = all_cells(alloc, cells, false)?;
    let live = all_cells(alloc, cells, true)?;
    Ok(Passing { dead, live })
}

/// What lines make of so many cells.
#[cycle(live)]
pub(crate) fn pass_lines(alloc: Global, cells: u32, lines: &[Line]) -> Result<Passing, Memory>
    ensures { IfOk result (λ p. IsPassing cells (lines_of lines.now) p.dead.items p.live.items) }
{
    let mut passing = pass_none(alloc, cells)?;
    let mut i = lines.len();
    while i > 0 {
        i -= 1;
        pass_line(alloc, cells, &lines[i], &mut passing)?;
    }
    Ok(passing)
}

/// What a line and the lines behind it make of so many cells, where it is said of those behind it.
#[cycle(live)]
pub(crate) fn pass_line(
    alloc: Global,
    cells: u32,
    line: &Line,
    behind: &mut Passing,
) -> Result<(), Memory>
    ensures { OnOk result ((rest : Lines) → IsPassing cells rest behind.old.dead.items behind.old.live.items →
        IsPassing cells (line_before line.now rest) behind.new.dead.items behind.new.live.items) }
{
    match line {
        Line::Set { to, work } => {
            pass_set(&mut behind.dead, *to, work);
            pass_set(&mut behind.live, *to, work);
            Ok(())
        }
        Line::Load { to, index, .. } => {
            pass_load(&mut behind.dead, *to, *index);
            pass_load(&mut behind.live, *to, *index);
            Ok(())
        }
        Line::Store { index, from, .. } => {
            pass_store(&mut behind.dead, *index, *from);
            pass_store(&mut behind.live, *index, *from);
            Ok(())
        }
        Line::If { test, yes, no, .. } => {
            let yes = pass_lines(alloc, cells, yes)?;
            let no = pass_lines(alloc, cells, no)?;
            let dead = live_before_if(alloc, &behind.dead, *test, &yes, &no)?;
            let live = live_before_if(alloc, &behind.live, *test, &yes, &no)?;
            *behind = Passing { dead, live };
            Ok(())
        }
        Line::Loop {
            test_first,
            test,
            answer,
            body,
            ..
        } => {
            let test = pass_lines(alloc, cells, test)?;
            let body = pass_lines(alloc, cells, body)?;
            let dead = live_before_loop(alloc, &behind.dead, *test_first, &test, *answer, &body)?;
            let live = live_before_loop(alloc, &behind.live, *test_first, &test, *answer, &body)?;
            *behind = Passing { dead, live };
            Ok(())
        }
        Line::Clear { .. } | Line::Barrier { .. } => Ok(()),
    }
}

fn pass_set(set: &mut [bool], to: u32, work: &Work)
    ensures { Becomes set.old set.new (λ c live. work_reads c (work_of work.now) || (not (nat_eq c to) && live)) }
{
    kill(set, to);
    mark_work(set, work);
}

fn pass_load(set: &mut [bool], to: u32, index: Atom)
    ensures { Becomes set.old set.new (λ c live. reads c index || (not (nat_eq c to) && live)) }
{
    kill(set, to);
    mark(set, index);
}

fn pass_store(set: &mut [bool], index: Atom, from: Atom)
    ensures { Becomes set.old set.new (λ c live. (reads c index || reads c from) || live) }
{
    mark(set, from);
    mark(set, index);
}
