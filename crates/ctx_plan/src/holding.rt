//! Which functions, statements and lines hold a barrier after inlining.

ghost use Rattle.std.specs.Prelude.{◌≡◌, [], false, map, replicate, IsTrue, IfOk};
ghost use Rattle.std.specs.Prelude.{OnOk};
ghost use Rattle.cl_model.specs.View.{statement_of, listed_statements, function_of};
ghost use Rattle.kir.specs.Inlined.{holds, some_holds};
ghost use Rattle.cl_model.specs.Listed.{listed_arms};
ghost use Rattle.ctx_plan.specs.Points.{points_onto, all_onto, arms_onto, entry, point_holds, points_hold};
ghost use Rattle.ctx_plan.specs.Sharing.{holding_of, bodies_after};

use crate::outline::{Piece, put_expression, put_expressions, put_optional};
use cl_model::{Function, Stmt, SwitchArm};
use std::alloc::Global;
use wg_num::{Memory, push};

/// The entry of a list with this number; false where there is none.
pub(crate) fn entry_of(list: &[bool], number: u32) -> bool
    ensures { result ≡ entry list.now number }
{
    match list.get(number as usize) {
        Some(entry) => *entry,
        None => false,
    }
}

#[cycle(points)]
fn put_all_points(list: &[Stmt], points: &mut Vec<Piece>) -> Result<(), Memory>
    ensures { OnOk result (points.new.items ≡ all_onto (listed_statements list.now) points.old.items) }
{
    for s in list {
        put_points(s, points)?;
    }
    Ok(())
}

#[cycle(points)]
fn put_arm_points(arms: &[SwitchArm], points: &mut Vec<Piece>) -> Result<(), Memory>
    ensures { OnOk result (points.new.items ≡ arms_onto (listed_arms arms.now) points.old.items) }
{
    for arm in arms {
        put_all_points(&arm.body, points)?;
    }
    Ok(())
}

/// Puts the calls and the barriers of a statement behind the points.
#[cycle(points)]
#[tactic(auto, using(cl_model::proofs::Rows::block_listed))]
fn put_points(s: &Stmt, points: &mut Vec<Piece>) -> Result<(), Memory>
    ensures { OnOk result (points.new.items ≡ points_onto (statement_of s.now) points.old.items) }
{
    match s {
        Stmt::Do(e) => put_expression(e, points),
        Stmt::Declare { value, .. } | Stmt::Return { value, .. } => put_optional(points, value),
        Stmt::Fill { values, .. } => put_expressions(values, points),
        Stmt::Block(list) => put_all_points(list, points),
        Stmt::If { test, yes, no, .. } => {
            put_expression(test, points)?;
            put_points(yes, points)?;
            match no {
                None => Ok(()),
                Some(no) => put_points(no, points),
            }
        }
        Stmt::Loop {
            test,
            step,
            body,
            ..
        } => {
            put_optional(points, test)?;
            put_optional(points, step)?;
            put_points(body, points)
        }
        Stmt::Switch { value, arms, .. } => {
            put_expression(value, points)?;
            put_arm_points(arms, points)
        }
        Stmt::Break { .. } | Stmt::Continue { .. } => Ok(()),
        Stmt::Barrier { .. } => push(points, Piece::Cut),
    }
}

/// Whether the point is a barrier, or a call of a function that holds one.
fn holds_at(inside: &[bool], point: &Piece) -> bool
    ensures { result ≡ point_holds (entry inside.now) point.now }
{
    match point {
        Piece::Declares(_) => false,
        Piece::Cut => true,
        Piece::Calls(_, function) => entry_of(inside, *function),
        Piece::Block(_) => false,
    }
}

/// Whether one of the points is.
fn some_hold(inside: &[bool], points: &[Piece]) -> bool
    ensures { result ≡ points_hold (entry inside.now) points.now }
{
    for point in points {
        if holds_at(inside, point) {
            return true;
        }
    }
    false
}

/// Whether a barrier stands in the statement; `inside` says it of each function.
pub(crate) fn statement_holds(alloc: Global, inside: &[bool], s: &Stmt) -> Result<bool, Memory>
    ensures { IfOk result (λ b. b ≡ holds (entry inside.now) (statement_of s.now)) }
{
    let mut points = Vec::new(alloc);
    put_points(s, &mut points)?;
    Ok(some_hold(inside, &points))
}

/// Whether a barrier stands in the statements.
fn statements_hold(alloc: Global, inside: &[bool], list: &[Stmt]) -> Result<bool, Memory>
    ensures { IfOk result (λ b. b ≡ some_holds (entry inside.now) (listed_statements list.now)) }
{
    let mut points = Vec::new(alloc);
    put_all_points(list, &mut points)?;
    Ok(some_hold(inside, &points))
}

/// For each function whether a barrier stands in its body, where `inside` says it of those that it
/// calls.
fn bodies_hold(alloc: Global, inside: &[bool], functions: &[Function]) -> Result<Vec<bool>, Memory>
    ensures { IfOk result (λ v. v.items ≡ bodies_after inside.now (map function_of functions.now)) }
{
    let mut list = Vec::new(alloc);
    for function in functions {
        let holds = statements_hold(alloc, inside, &function.body)?;
        push(&mut list, holds)?;
    }
    Ok(list)
}

/// So many entries that are false.
pub(crate) fn no_entries(alloc: Global, count: usize) -> Result<Vec<bool>, Memory>
    ensures { IfOk result (λ v. v.items ≡ replicate count false) }
{
    let mut list = Vec::new(alloc);
    for _entry in 0..count {
        push(&mut list, false)?;
    }
    Ok(list)
}

/// Whether the entries are the same.
fn same_entries(a: &[bool], b: &[bool]) -> bool
    ensures { IsTrue result → a.now ≡ b.now }
{
    if a.len() != b.len() {
        return false;
    }
    for i in 0..a.len() {
        if a[i] != b[i] {
            return false;
        }
    }
    true
}

/// For each function whether a barrier stands in its body after inlining. No function leads back to
/// itself, so calls nest less deep than there are functions.
pub(crate) fn functions_hold(alloc: Global, functions: &[Function]) -> Result<Vec<bool>, Memory>
    ensures { IfOk result (λ v. v.items ≡ holding_of (map function_of functions.now)) }
{
    let mut inside = no_entries(alloc, functions.len())?;
    for _depth in 0..functions.len() {
        let next = bodies_hold(alloc, &inside, functions)?;
        if same_entries(&next, &inside) {
            return Ok(next);
        }
        inside = next;
    }
    Ok(inside)
}
