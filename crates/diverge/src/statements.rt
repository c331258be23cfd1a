//! One round over a statement.

ghost use Rattle.std.specs.Prelude.{◌≡◌, true};
ghost use Rattle.cl_model.specs.View.{statement_of, listed_statements, function_of};
ghost use Rattle.diverge.specs.Known.{state_of};
ghost use Rattle.diverge.specs.Rounds as spec;
ghost use Rattle.cl_model.specs.Listed.{listed_arms};
ghost use Rattle.diverge.specs.Listed.{all_closed};

use crate::expressions::{expression, operands, optional};
use crate::known::{
    Known, Spot, Ways, behind, declare, give, joined, leave, no_way, under, way_out,
};
use cl_model::{Function, Stmt, SwitchArm};

// Notes of a declaration that its scope holds a way out under a condition that varies.
fn close(s: &Stmt, at: Spot, known: &mut Known)
    ensures { state_of known.new ≡ spec.closed at (statement_of s.now) true (state_of known.old) }
{
    if let Stmt::Declare { var, .. } = s {
        leave(known, at.function, *var as usize);
    }
}

// The same of each declaration among the statements, the last first.
fn close_all(list: &[Stmt], at: Spot, known: &mut Known)
    ensures { state_of known.new ≡ all_closed at list.now (state_of known.old) }
{
    for number in (0..list.len()).rev() {
        close(&list[number], at, known);
    }
}

/// The ways out of the statements of a block.
#[cycle(statements)]
pub(crate) fn statements(list: &[Stmt], own: &Function, at: Spot, known: &mut Known) -> Ways
    ensures ways { result ≡ (spec.gone_over_all (function_of own.now) at (listed_statements list.now)
        (state_of known.old)).ways }
    ensures known { state_of known.new ≡
        (spec.gone_over_all (function_of own.now) at (listed_statements list.now) (state_of known.old)).state }
{
    let mut ways = no_way();
    // the statements in front of the last one that holds a way out under a condition that varies
    let mut open = 0;
    for (number, s) in list.iter().enumerate() {
        let inside = statement(s, own, at, known);
        ways = joined(inside, ways);
        if inside.escapes {
            open = number;
        }
    }
    close_all(&list[..open], at, known);
    ways
}

#[cycle(statements)]
fn arms(list: &[SwitchArm], own: &Function, at: Spot, known: &mut Known) -> Ways
    ensures ways { result ≡ (spec.gone_over_arms (function_of own.now) at (listed_arms list.now)
        (state_of known.old)).ways }
    ensures known { state_of known.new ≡
        (spec.gone_over_arms (function_of own.now) at (listed_arms list.now) (state_of known.old)).state }
{
    let mut ways = no_way();
    for arm in list {
        let inside = statements(&arm.body, own, at, known);
        ways = joined(inside, ways);
    }
    ways
}

/// The ways out of a statement; what it declares, assigns, passes and returns is noted.
#[cycle(statements)]
fn statement(s: &Stmt, own: &Function, at: Spot, known: &mut Known) -> Ways
    ensures ways { result ≡ (spec.gone_over (function_of own.now) at (statement_of s.now) (state_of known.old)).ways }
    ensures known { state_of known.new ≡
        (spec.gone_over (function_of own.now) at (statement_of s.now) (state_of known.old)).state }
{
    match s {
        Stmt::Do(e) => {
            let _ = expression(e, own, at, known);
            no_way()
        }
        Stmt::Declare { var, value } => {
            let varies = optional(value, own, at, known);
            declare(known, at, *var as usize, varies);
            no_way()
        }
        Stmt::Fill { values, .. } => {
            let _ = operands(values, own, at, known);
            no_way()
        }
        Stmt::Block(list) => statements(list, own, at, known),
        Stmt::If {
            site,
            test,
            yes,
            no,
        } => {
            let varies = expression(test, own, at, known);
            let inner = under(at, *site, varies);
            let chosen = statement(yes, own, inner, known);
            let other = match no {
                None => no_way(),
                Some(no) => statement(no, own, inner, known),
            };
            behind(varies, joined(chosen, other))
        }
        Stmt::Loop {
            site,
            test,
            step,
            body,
            ..
        } => {
            let varies = optional(test, own, at, known);
            let inner = under(at, *site, varies);
            // the test stands under itself
            let _ = optional(test, own, inner, known);
            let _ = optional(step, own, inner, known);
            let inside = statement(body, own, inner, known);
            behind(varies, inside)
        }
        Stmt::Switch {
            site,
            value,
            arms: list,
        } => {
            let varies = expression(value, own, at, known);
            let inside = arms(list, own, under(at, *site, varies), known);
            behind(varies, inside)
        }
        Stmt::Break { .. } | Stmt::Continue { .. } => way_out(),
        Stmt::Return { value, .. } => {
            let varies = optional(value, own, at, known);
            give(known, at, varies);
            way_out()
        }
        Stmt::Barrier { .. } => no_way(),
    }
}
