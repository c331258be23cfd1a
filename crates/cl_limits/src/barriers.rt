//! How deep barriers stand in functions with all that they call.

ghost use Rattle.std.specs.Prelude.{◌≡◌, ℕ, IfOk, min, max, length, slice_index};
ghost use Rattle.cl_tree.specs.Syntax.{views};
ghost use Rattle.cl_limits.specs.Heights.{lifted, functions_among, full_height};
ghost use Rattle.cl_limits.specs.Rounds as rounds;

use crate::points::{Point, count_functions, points_of};
use crate::sums::{same_values, value_at, zeros};
use cl_tree::Tree;
use std::alloc::Global;
use wg_num::Memory;

/// The height with so many statements more around it, at most the cap.
fn capped_lifted(cap: u64, around: u32, height: u64) -> u64
    ensures { result ≡ min (lifted around height) cap }
{
    if height == 0 {
        0
    } else {
        height.saturating_add(u64::from(around)).min(cap)
    }
}

/// The height of what stands at a point: a barrier, or a call.
fn point_height(heights: &[u64], called: Option<usize>) -> u64
    ensures { result ≡ rounds.point_height heights.now called }
{
    match called {
        None => 1,
        Some(function) => value_at(heights, function),
    }
}

/// Raises the height of the function of a point to that of the point.
fn add_point(cap: u64, heights: &[u64], tops: &mut [u64], point: Point)
    ensures { tops.new ≡ rounds.with_point cap heights.now tops.old point }
{
    if point.caller < tops.len() {
        let height = capped_lifted(cap, point.around, point_height(heights, point.called));
        tops[point.caller] = tops[point.caller].max(height).min(cap);
    }
}

/// The heights of functions, where those that they call have these.
fn next_heights(
    alloc: Global,
    cap: u64,
    count: usize,
    points: &[Point],
    heights: &[u64],
) -> Result<Vec<u64>, Memory>
    ensures { IfOk result (λ v. v.items ≡ rounds.next_heights cap count points.now heights.now) }
{
    let mut tops = zeros(alloc, count)?;
    for point in points {
        add_point(cap, heights, &mut tops, *point);
    }
    Ok(tops)
}

/// How deep barriers stand in each function that some trees define with all that it calls, at most the cap: 0 where
/// there is no barrier, and else one more than the number of `if`, loop and `switch` statements around the deepest
/// one. A barrier in any part of a statement has it around itself, the first part of a `for` too.
pub fn heights(alloc: Global, cap: u32, trees: &[Tree]) -> Result<Vec<u64>, Memory>
    ensures size { IfOk result (λ v. length v.items ≡ length (functions_among (views trees.now))) }
    ensures each { IfOk result (λ v. (f : ℕ) →
        slice_index v.items f ≡ min (full_height (functions_among (views trees.now)) f) cap) }
{
    let points = points_of(alloc, cap, trees)?;
    let count = count_functions(trees);
    let mut heights = zeros(alloc, count)?;
    for _round in 0..count {
        let next = next_heights(alloc, u64::from(cap), count, &points, &heights)?;
        if same_values(&next, &heights) {
            return Ok(heights);
        }
        heights = next;
    }
    Ok(heights)
}
