//! A tree of regions as text. First a picture: a row for each region with the region to which its items go and the
//! cells that are live there, a line for each barrier that cuts, and for a vote or a loop where the items go by their
//! answers. Below it are the lines of each region.

use crate::error::DumpError;
use crate::kernel_text::{put_cell_name, put_lines, put_operand};
use crate::text::{Text, indent, put_numbered, put_place};
use kir::{Kernel, Line};
use regions::{Region, RegionTree};
use std::alloc::Global;
use wg_num::{Memory, push};

// Where the columns of the picture begin, in bytes: where the items go, and what is live there.
const GOAL_AT: usize = 18;

const LIVE_AT: usize = 46;

/// The picture and the lines of regions, as far as they are made.
#[derive(Drop)]
struct Drawing {
    picture: Text,
    lines: Text,
    // The sites of the kernel's barriers, in the order of the picture, and how many of them stand in it.
    barriers: Vec<u32>,
    passed: usize,
}

// Where items go behind a tree: to no region, to that of a number, or where the vote of a loop or a branch sends them.
#[derive(Clone, Copy)]
enum Goal {
    End,
    Region(u32),
    Vote,
}

// Where a tree stands in the picture: its depth, the number of its first region, and where its items go.
#[derive(Clone, Copy)]
struct Spot {
    depth: usize,
    number: u32,
    goal: Goal,
}

// Where the parts of a branch or a loop stand: the first tree, the second, and the twin.
#[derive(Clone, Copy)]
struct Parts {
    first: Spot,
    second: Spot,
    twin: Spot,
}

impl Spot {
    // A part of a tree at this spot.
    fn inner(self, number: u32, goal: Goal) -> Spot {
        Spot {
            depth: self.depth.saturating_add(1),
            number,
            goal,
        }
    }
}

#[cycle(sites)]
fn add_sites(sites: &mut Vec<u32>, lines: &[Line]) -> Result<(), Memory> {
    for line in lines {
        add_sites_of(sites, line)?;
    }
    Ok(())
}

// The barriers of a line, those of a loop's body first where the body comes first.
#[cycle(sites)]
fn add_sites_of(sites: &mut Vec<u32>, line: &Line) -> Result<(), Memory> {
    let (first, second) = match line {
        Line::Barrier { site } => return push(sites, *site),
        Line::If { yes, no, .. } => (yes, no),
        Line::Loop {
            test_first,
            test,
            body,
            ..
        } => {
            if *test_first {
                (test, body)
            } else {
                (body, test)
            }
        }
        _ => return Ok(()),
    };
    add_sites(sites, first)?;
    add_sites(sites, second)
}

#[cycle(count)]
fn regions_of(trees: &[RegionTree]) -> u32 {
    let mut found: u32 = 0;
    for tree in trees {
        found = found.saturating_add(regions_in(tree));
    }
    found
}

// How many regions a tree has.
#[cycle(count)]
fn regions_in(tree: &RegionTree) -> u32 {
    match tree {
        RegionTree::Items(_) => 1,
        RegionTree::Seq(trees) => regions_of(trees),
        RegionTree::Vote { yes, no, .. } => regions_in(yes)
            .saturating_add(regions_in(no))
            .saturating_add(2),
        RegionTree::Loop { test, body, .. } => regions_in(test)
            .saturating_add(regions_in(body))
            .saturating_add(1),
    }
}

fn put_goal(text: &mut Text, goal: Goal) {
    match goal {
        Goal::End => text.push_str("end"),
        Goal::Region(number) => put_numbered(text, "", number),
        Goal::Vote => text.push_str("vote"),
    }
}

// The place of a site, behind a word.
fn put_site(text: &mut Text, kernel: &Kernel, word: &str, site: u32) {
    text.push_str(word);
    if let Some(place) = kernel.sites.get(site as usize) {
        put_place(text, *place);
    }
}

// The cells that are live behind a region, where there are any.
fn put_live(text: &mut Text, kernel: &Kernel, start: usize, live: &[u32]) {
    if live.is_empty() {
        return;
    }
    text.fill(start, LIVE_AT);
    text.push_str("live");
    for number in live {
        text.push_str(" ");
        put_cell_name(text, &kernel.cells, *number);
    }
}

// The row of a region.
fn put_row(text: &mut Text, kernel: &Kernel, at: Spot, region: &Region) {
    let start = text.len();
    indent(text, at.depth);
    put_numbered(text, "region ", at.number);
    text.fill(start, GOAL_AT);
    text.push_str("-> ");
    put_goal(text, at.goal);
    if let Some(answer) = region.answer {
        text.push_str(" on");
        put_operand(text, &kernel.cells, answer);
    }
    put_live(text, kernel, start, &region.live);
    text.push_str("\n");
}

// The lines of a region below its number.
fn put_region(text: &mut Text, kernel: &Kernel, number: u32, region: &Region) {
    put_numbered(text, "region ", number);
    if region.from_vote {
        text.push_str(", from each item's answer of the last vote");
    }
    text.push_str("\n");
    put_lines(text, &kernel.cells, 1, &region.lines);
}

// The line of a vote or a loop, with the place of the only line of its twin.
fn put_head(text: &mut Text, kernel: &Kernel, at: Spot, word: &str, twin: &Region) {
    let start = text.len();
    indent(text, at.depth);
    text.push_str(word);
    if let Some(Line::If { site, .. } | Line::Loop { site, .. }) = twin.lines.first() {
        put_site(text, kernel, " ", *site);
    }
    text.fill(start, GOAL_AT);
}

// Where items go that all answer yes, that all answer no, and that do not agree.
fn put_ways(text: &mut Text, yes: u32, no: Goal, mixed: u32) {
    put_numbered(text, "yes -> ", yes);
    text.push_str(", no -> ");
    put_goal(text, no);
    put_numbered(text, ", mixed -> ", mixed);
    text.push_str("\n");
}

fn draw_region(drawing: &mut Drawing, kernel: &Kernel, at: Spot, region: &Region) {
    put_row(&mut drawing.picture, kernel, at, region);
    put_region(&mut drawing.lines, kernel, at.number, region);
}

// The next barrier that cuts.
fn draw_barrier(drawing: &mut Drawing, kernel: &Kernel, depth: usize) {
    indent(&mut drawing.picture, depth);
    if let Some(site) = drawing.barriers.get(drawing.passed) {
        put_site(&mut drawing.picture, kernel, "------ barrier ", *site);
    }
    drawing.picture.push_str("\n");
    drawing.passed = drawing.passed.saturating_add(1);
}

// Whether a barrier stands between two trees: behind plain regions each cut is one, but for that in front of a loop.
fn is_barrier(tree: &RegionTree, next: Option<&RegionTree>) -> bool {
    matches!(
        (tree, next),
        (
            RegionTree::Items(_),
            Some(RegionTree::Items(_) | RegionTree::Vote { .. })
        )
    )
}

// Where the parts of a branch stand behind the region that votes.
fn vote_parts(at: Spot, yes: &RegionTree, no: &RegionTree) -> Parts {
    let first = at.number.saturating_add(1);
    let second = first.saturating_add(regions_in(yes));
    let twin = second.saturating_add(regions_in(no));
    Parts {
        first: at.inner(first, at.goal),
        second: at.inner(second, at.goal),
        twin: at.inner(twin, at.goal),
    }
}

// The line of a branch, and the region that votes.
fn draw_vote(
    drawing: &mut Drawing,
    kernel: &Kernel,
    at: Spot,
    parts: Parts,
    test: &Region,
    mixed: &Region,
) {
    let Parts {
        first,
        second,
        twin,
    } = parts;
    put_head(&mut drawing.picture, kernel, at, "vote", mixed);
    put_ways(
        &mut drawing.picture,
        first.number,
        Goal::Region(second.number),
        twin.number,
    );
    draw_region(drawing, kernel, at.inner(at.number, Goal::Vote), test);
}

// Where the parts of a loop stand: the test and the body, or the other way round.
fn loop_parts(at: Spot, test_first: bool, first: &RegionTree, second: &RegionTree) -> Parts {
    let number = at.number.saturating_add(regions_in(first));
    let twin = number.saturating_add(regions_in(second));
    let (one, other) = if test_first {
        (Goal::Vote, Goal::Region(at.number))
    } else {
        (Goal::Region(number), Goal::Vote)
    };
    Parts {
        first: at.inner(at.number, one),
        second: at.inner(number, other),
        twin: at.inner(twin, at.goal),
    }
}

// The line of a loop.
fn draw_loop(
    drawing: &mut Drawing,
    kernel: &Kernel,
    at: Spot,
    test_first: bool,
    parts: Parts,
    rest: &Region,
) {
    let (word, body) = if test_first {
        ("loop", parts.second)
    } else {
        ("loop after", parts.first)
    };
    put_head(&mut drawing.picture, kernel, at, word, rest);
    put_ways(
        &mut drawing.picture,
        body.number,
        at.goal,
        parts.twin.number,
    );
}

// Where the items go behind a tree, whose next one begins with the region of this number, if there is a next one.
fn goal_before(next: Option<&RegionTree>, number: u32, last: Goal) -> Goal {
    match next {
        Some(_) => Goal::Region(number),
        None => last,
    }
}

#[cycle(tree)]
fn draw_trees(drawing: &mut Drawing, kernel: &Kernel, at: Spot, trees: &[RegionTree]) {
    let mut number = at.number;
    let mut passed: usize = 0;
    for tree in trees {
        passed = passed.saturating_add(1);
        let next = trees.get(passed);
        let behind = number.saturating_add(regions_in(tree));
        let goal = goal_before(next, behind, at.goal);
        draw_tree(drawing, kernel, Spot { number, goal, ..at }, tree);
        if is_barrier(tree, next) {
            draw_barrier(drawing, kernel, at.depth);
        }
        number = behind;
    }
}

#[cycle(tree)]
fn draw_tree(drawing: &mut Drawing, kernel: &Kernel, at: Spot, tree: &RegionTree) {
    match tree {
        RegionTree::Items(region) => draw_region(drawing, kernel, at, region),
        RegionTree::Seq(trees) => draw_trees(drawing, kernel, at, trees),
        RegionTree::Vote {
            test,
            yes,
            no,
            mixed,
        } => {
            let parts = vote_parts(at, yes, no);
            draw_vote(drawing, kernel, at, parts, test, mixed);
            draw_tree(drawing, kernel, parts.first, yes);
            draw_tree(drawing, kernel, parts.second, no);
            draw_region(drawing, kernel, parts.twin, mixed);
        }
        RegionTree::Loop {
            test_first,
            test,
            body,
            rest,
        } => {
            let (first, second) = if *test_first {
                (test, body)
            } else {
                (body, test)
            };
            let parts = loop_parts(at, *test_first, first, second);
            draw_loop(drawing, kernel, at, *test_first, parts, rest);
            draw_tree(drawing, kernel, parts.first, first);
            draw_tree(drawing, kernel, parts.second, second);
            draw_region(drawing, kernel, parts.twin, rest);
        }
    }
}

/// The text of the regions of a kernel, numbered from 1 in the order of the picture.
pub(crate) fn regions_text(
    alloc: Global,
    kernel: &Kernel,
    tree: &RegionTree,
) -> Result<String, DumpError> {
    let mut barriers = Vec::new(alloc);
    add_sites(&mut barriers, &kernel.body)?;
    let mut drawing = Drawing {
        picture: Text::new(alloc),
        lines: Text::new(alloc),
        barriers,
        passed: 0,
    };
    let at = Spot {
        depth: 0,
        number: 1,
        goal: Goal::End,
    };
    draw_tree(&mut drawing, kernel, at, tree);
    joined(drawing)
}

// The picture, and behind an empty line the lines.
fn joined(drawing: Drawing) -> Result<String, DumpError> {
    let Drawing {
        mut picture,
        lines,
        ..
    } = drawing;
    let lines = lines.finish()?;
    picture.push_str("\n");
    picture.push_str(&lines);
    picture.finish()
}
