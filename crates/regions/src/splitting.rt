//! The cutting of a kernel into its regions.

ghost use Rattle.std.specs.Prelude.{◌≡◌, ℕ, ◌+◌, ◌-◌, ◌≤◌, ◌<◌, ◌∷◌, []};
ghost use Rattle.std.specs.Prelude.{◌||◌, true, false, List, Option, None, IfOk, length, take, drop};
ghost use Rattle.std.specs.Prelude.{Bool as Test};
ghost use Rattle.kir.specs.Tree.{Lines, NoLine};
ghost use Rattle.kir.specs.Places.{Behind, Place, Tasks, LinesAt};
ghost use Rattle.kir.specs.Listed.{line_before, lines_of};
ghost use Rattle.kir.specs.Live.{live_in, live_now};
ghost use Rattle.kir.specs.Cuts.{holds_barrier};
ghost use Rattle.kir.specs.View.{kernel_of};
ghost use Rattle.regions.specs.Tree.{Tree, NoRegion, LoopThen};
ghost use Rattle.regions.specs.View.{region_of, tree_before, IsOneRegion};
ghost use Rattle.regions.specs.Split.{until_cut, live_from, cut_into, split_of};
ghost use Rattle.regions.specs.Fragments.{EachRegion, IsPiece};
ghost use Rattle.regions.specs.TreeRun.{RunsInterleave};
ghost use Rattle.regions.specs.Living.{those_of, IsSet, answer_live};
ghost use Rattle.regions.specs.Cutting.{region_with, stacked, ended_by, ended, cut_by, AreLiveAt};

use crate::copying::{copy_line, copy_lines};
use crate::living::{
    all_cells, listed_cells, live_at_answer, live_before, live_in_either, pass_line, pass_lines,
    pass_none,
};
use crate::region::{Region, RegionTree};
use kir::holding::{line_holds, lines_hold};
use kir::{Atom, Kernel, Line};
use std::alloc::Global;
use wg_num::{Memory, beside, boxed, push};

/// A branch that the group takes on a vote: what is done where all items vote yes, where all vote
/// no, and the plain twin.
#[derive(Drop)]
pub struct Choice {
    pub yes: Box<RegionTree>,
    pub no: Box<RegionTree>,
    pub mixed: Region,
}

/// A loop on whose answer the group votes: its test, its body, and the rest of it for a group that
/// does not agree.
#[derive(Drop)]
pub struct Round {
    pub test_first: bool,
    pub test: Box<RegionTree>,
    pub body: Box<RegionTree>,
    pub rest: Region,
}

/// What becomes of a line that is a barrier or holds one.
#[derive(Drop)]
pub enum Cut {
    Barrier,
    Choice(Atom, Choice),
    Loop(Round),
}

/// The end of a region whose lines begin further ahead: the number of the line behind its last, the
/// atom on which its items vote there, the cells that are live there, the branch that they choose
/// by the vote if they do, and the trees behind all that, the last first.
#[derive(Drop)]
pub struct Ending {
    pub end: usize,
    pub answer: Option<Atom>,
    pub live: Vec<u32>,
    pub choice: Option<Choice>,
    pub behind: Vec<RegionTree>,
}

/// The regions of a kernel: cut at each barrier (OpenCL 1.2, section 6.12.8), and before and behind the test and the
/// body of a line that holds one. `Memory` where memory was refused.
pub fn split(alloc: Global, kernel: &Kernel) -> Result<RegionTree, Memory>
    ensures cut { IfOk result (λ t. tree_before t NoRegion ≡ split_of (kernel_of kernel.now)) }

    // A kernel without a barrier is one region.
    ensures one { IfOk result (λ t. holds_barrier (kernel_of kernel.now).body ≡ false → IsOneRegion t) }

    // No line stands in a region twice, and each run of the tree is an interleaving of the items.
    ensures pieces { IfOk result (λ t. EachRegion (IsPiece (kernel_of kernel.now)) (tree_before t NoRegion)) }
    ensures interleaves { IfOk result (λ t. RunsInterleave (kernel_of kernel.now) (tree_before t NoRegion)) }
{
    let tree = cut_kernel(alloc, kernel)?;
    Ok(tree)
}

fn cut_kernel(alloc: Global, kernel: &Kernel) -> Result<RegionTree, Memory>
    ensures cut { IfOk result (λ t. tree_before t NoRegion ≡ split_of (kernel_of kernel.now)) }
    ensures one { IfOk result (λ t. holds_barrier (kernel_of kernel.now).body ≡ false → IsOneRegion t) }
{
    let cells = kernel.cells.len() as u32;
    let none = all_cells(alloc, cells, false)?;
    cut_lines(alloc, cells, &kernel.body, None, &none, &none)
}

/// The regions of lines at whose end the items vote on `ends`: behind them the cells `now` are live,
/// and the cells `behind` at the cut there.
#[cycle(cut)]
fn cut_lines(
    alloc: Global,
    cells: u32,
    lines: &[Line],
    ends: Option<Atom>,
    now: &Vec<bool>,
    behind: &Vec<bool>,
) -> Result<RegionTree, Memory>
    ensures cut { IfOk result (λ t. (at : Place) (k : Tasks) → AreLiveAt cells now.now.items behind.now.items k →
        tree_before t NoRegion ≡ cut_into cells ends (until_cut (lines_of lines.now)) at (lines_of lines.now) k) }
    ensures one { IfOk result (λ t. holds_barrier (lines_of lines.now) ≡ false → IsOneRegion t) }
{
    let live = listed_cells(alloc, cells, behind)?;
    if !lines_hold(lines) {
        let region = region_of_lines(alloc, lines, ends, live)?;
        return Ok(RegionTree::Items(region));
    }
    let mut passing = pass_none(alloc, cells)?;
    let mut ending = Ending {
        end: lines.len(),
        answer: ends,
        live,
        choice: None,
        behind: Vec::new(alloc),
    };
    let mut i = lines.len();
    while i > 0 {
        i -= 1;
        let line = &lines[i];
        if line_holds(line) {
            let after = live_before(alloc, now, &passing)?;
            let cut = cut_line(alloc, cells, line, &after)?;
            pass_line(alloc, cells, line, &mut passing)?;
            let here = live_before(alloc, now, &passing)?;
            ending = end_before(alloc, cells, lines, i, cut, &here, ending)?;
        } else {
            pass_line(alloc, cells, line, &mut passing)?;
        }
    }
    let trees = close(alloc, lines, 0, ending)?;
    Ok(in_order(trees))
}

/// What becomes of a line that is a barrier or holds one, behind which the cells `now` are live.
#[cycle(cut)]
fn cut_line(alloc: Global, cells: u32, line: &Line, now: &Vec<bool>) -> Result<Cut, Memory>
    requires { holds_barrier (line_before line.now NoLine) ≡ true }
    ensures { IfOk result (λ cut. (ends : Option Atom) (first : Lines) (at : Place) (rest : Lines) (k : Tasks) →
        IsSet cells now.now.items (λ c. live_in c rest (live_now c k))
        → cut_into cells ends first at (line_before line.now rest) k ≡
        cut_by cut first (live_from 0 cells (LinesAt at (line_before line.now rest) k))
        (cut_into cells ends (until_cut rest) (Behind ∷ at) rest k)) }
{
    match line {
        Line::If { test, yes, no, .. } => {
            let yes = cut_part(alloc, cells, yes, None, now, now)?;
            let no = cut_part(alloc, cells, no, None, now, now)?;
            let mixed = twin(alloc, cells, line, now, false)?;
            Ok(Cut::Choice(*test, Choice { yes, no, mixed }))
        }
        Line::Loop {
            test_first,
            test,
            answer,
            body,
            ..
        } => {
            let around = around_answer(alloc, cells, test, *answer, body, now)?;
            let Around {
                before_test,
                at_answer,
                behind_answer,
            } = around;
            let ends = Some(*answer);
            let test = cut_part(alloc, cells, test, ends, &at_answer, &behind_answer)?;
            let body = cut_part(alloc, cells, body, None, &before_test, &before_test)?;
            let rest = twin(alloc, cells, line, now, true)?;
            Ok(Cut::Loop(Round {
                test_first: *test_first,
                test,
                body,
                rest,
            }))
        }
        Line::Set { .. }
        | Line::Load { .. }
        | Line::Store { .. }
        | Line::Clear { .. }
        | Line::Barrier { .. } => Ok(Cut::Barrier),
    }
}

/// The cells that are live before the test of a loop, at its answer and behind that.
#[derive(Drop)]
struct Around {
    before_test: Vec<bool>,
    at_answer: Vec<bool>,
    behind_answer: Vec<bool>,
}

/// Those of a loop behind which the cells `now` are live.
fn around_answer(
    alloc: Global,
    cells: u32,
    test: &[Line],
    answer: Atom,
    body: &[Line],
    now: &[bool],
) -> Result<Around, Memory>
    ensures at { IfOk result (λ a. (f : ℕ → Test) → IsSet cells now.now f →
        IsSet cells a.at_answer.items (answer_live (lines_of test.now) answer (lines_of body.now) f)) }
    ensures before { IfOk result (λ a. (f : ℕ → Test) → IsSet cells now.now f →
        IsSet cells a.before_test.items
        (λ c. live_in c (lines_of test.now) (answer_live (lines_of test.now) answer (lines_of body.now) f c))) }
    ensures behind { IfOk result (λ a. (f : ℕ → Test) → IsSet cells now.now f →
        IsSet cells a.behind_answer.items
        (λ c. f c || live_in c (lines_of body.now)
        (live_in c (lines_of test.now) (answer_live (lines_of test.now) answer (lines_of body.now) f c)))) }
{
    let test = pass_lines(alloc, cells, test)?;
    let body = pass_lines(alloc, cells, body)?;
    let at_answer = live_at_answer(alloc, now, &test, answer, &body)?;
    let before_test = live_before(alloc, &at_answer, &test)?;
    let round = live_before(alloc, &before_test, &body)?;
    let behind_answer = live_in_either(alloc, now, &round)?;
    Ok(Around {
        before_test,
        at_answer,
        behind_answer,
    })
}

/// The regions of a branch, a test or a body, as those of lines.
#[cycle(cut)]
fn cut_part(
    alloc: Global,
    cells: u32,
    lines: &[Line],
    ends: Option<Atom>,
    now: &Vec<bool>,
    behind: &Vec<bool>,
) -> Result<Box<RegionTree>, Memory>
    ensures { IfOk result (λ t. (at : Place) (k : Tasks) → AreLiveAt cells now.now.items behind.now.items k →
        tree_before t.value NoRegion ≡ cut_into cells ends (until_cut (lines_of lines.now)) at
        (lines_of lines.now) k) }
{
    let tree = cut_lines(alloc, cells, lines, ends, now, behind)?;
    boxed(alloc, tree)
}

/// The plain twin of a line behind which the cells `now` are live: the line alone.
fn twin(
    alloc: Global,
    cells: u32,
    line: &Line,
    now: &[bool],
    from_vote: bool,
) -> Result<Region, Memory>
    ensures { IfOk result (λ r. region_of r ≡ record {
      lines = line_before line.now NoLine;
      answer = None;
      from_vote = from_vote;
      live = those_of cells now.now;
    }) }
{
    let live = listed_cells(alloc, cells, now)?;
    let line = copy_line(alloc, line)?;
    let mut lines = Vec::new(alloc);
    push(&mut lines, line)?;
    Ok(Region {
        lines,
        answer: None,
        from_vote,
        live,
    })
}

/// A region of lines.
fn region_of_lines(
    alloc: Global,
    lines: &[Line],
    answer: Option<Atom>,
    live: Vec<u32>,
) -> Result<Region, Memory>
    ensures { IfOk result (λ r. region_of r ≡ region_with (lines_of lines.now) answer live.items) }
{
    let lines = copy_lines(alloc, lines)?;
    Ok(Region {
        lines,
        answer,
        from_vote: false,
        live,
    })
}

/// The end of the region before the line with this number, which becomes that and before which the
/// cells `here` are live, where the region behind it ends so.
fn end_before(
    alloc: Global,
    cells: u32,
    lines: &[Line],
    number: usize,
    cut: Cut,
    here: &[bool],
    ending: Ending,
) -> Result<Ending, Memory>
    requires before { number < ending.end }
    requires within { ending.end ≤ length lines.now }
    ensures end { IfOk result (λ e. e.end ≡ number) }
    ensures ended { IfOk result (λ e. (first : Lines) →
        ended first e ≡ cut_by cut first (those_of cells here.now)
        (ended (lines_of (take (ending.end - (number + 1)) (drop (number + 1) lines.now))) ending)) }
{
    let (behind, cut) = beside(close(alloc, lines, number + 1, ending), cut)?;
    let (live, (behind, cut)) = beside(listed_cells(alloc, cells, here), (behind, cut))?;
    match cut {
        Cut::Barrier => Ok(Ending {
            end: number,
            answer: None,
            live,
            choice: None,
            behind,
        }),
        Cut::Choice(test, choice) => Ok(Ending {
            end: number,
            answer: Some(test),
            live,
            choice: Some(choice),
            behind,
        }),
        Cut::Loop(round) => {
            let behind = loop_before(round, behind)?;
            Ok(Ending {
                end: number,
                answer: None,
                live,
                choice: None,
                behind,
            })
        }
    }
}

/// Trees, the last first, with a loop before them.
fn loop_before(round: Round, mut trees: Vec<RegionTree>) -> Result<Vec<RegionTree>, Memory>
    ensures { IfOk result (λ v. stacked v.items NoRegion ≡
        LoopThen round.test_first (tree_before round.test.value NoRegion) (tree_before round.body.value NoRegion)
        (region_of round.rest) (stacked trees.items NoRegion)) }
{
    let Round {
        test_first,
        test,
        body,
        rest,
    } = round;
    let tree = RegionTree::Loop {
        test_first,
        test,
        body,
        rest,
    };
    push(&mut trees, tree)?;
    Ok(trees)
}

/// The region from the line with this number to its end, before the trees behind it.
fn close(
    alloc: Global,
    lines: &[Line],
    number: usize,
    ending: Ending,
) -> Result<Vec<RegionTree>, Memory>
    requires before { number ≤ ending.end }
    requires within { ending.end ≤ length lines.now }
    ensures { IfOk result (λ v. stacked v.items NoRegion ≡
        ended (lines_of (take (ending.end - number) (drop number lines.now))) ending) }
{
    let Ending {
        end,
        answer,
        live,
        choice,
        mut behind,
    } = ending;
    let (region, choice) = beside(
        region_of_lines(alloc, &lines[number..end], answer, live),
        choice,
    )?;
    push(&mut behind, with_choice(region, choice))?;
    Ok(behind)
}

/// A region, with the branch that its items choose by their votes if they do.
fn with_choice(region: Region, choice: Option<Choice>) -> RegionTree
    ensures { (first : Lines) (answer : Option Atom) (live : List ℕ) (rest : Tree) →
        region_of region ≡ region_with first answer live →
        tree_before result rest ≡ ended_by choice first answer live rest }
{
    match choice {
        None => RegionTree::Items(region),
        Some(Choice { yes, no, mixed }) => RegionTree::Vote {
            test: region,
            yes,
            no,
            mixed,
        },
    }
}

/// The tree of trees of which the last stands first.
fn in_order(mut trees: Vec<RegionTree>) -> RegionTree
    ensures { tree_before result NoRegion ≡ stacked trees.items NoRegion }
{
    if trees.len() == 1 {
        return trees.remove(0);
    }
    trees.reverse();
    RegionTree::Seq(trees)
}
