//! One round over an expression.

ghost use Rattle.std.specs.Prelude.{◌≡◌, Some, false};
ghost use Rattle.cl_model.specs.Objects.{is_constant_pointer};
ghost use Rattle.cl_model.specs.Varying.{is_own as is_own_of, is_constant_root};
ghost use Rattle.cl_model.specs.View.{expression_of, argument_of, listed_expressions, optional_expression, function_of};
ghost use Rattle.diverge.specs.Known.{state_of};
ghost use Rattle.diverge.specs.Rounds as spec;
ghost use Rattle.cl_model.specs.Listed.{listed_arguments};
ghost use Rattle.diverge.specs.Listed.{seen_target, set_target as set_target_of};

use crate::known::{Known, Spot, assign, pass, result_at, under, variable_at};
use cl_model::{Arg, Expr, Function, Query, Root, Space, Target, Var, VarKind};

// Whether a work-item function differs from item to item of a group.
fn is_own(what: Query) -> bool
    ensures { result ≡ is_own_of what }
{
    match what {
        Query::GlobalId | Query::LocalId => true,
        Query::WorkDim
        | Query::GroupId
        | Query::GlobalSize
        | Query::LocalSize
        | Query::NumGroups
        | Query::GlobalOffset => false,
    }
}

// Whether a variable is a pointer to constant memory.
fn is_constant_variable(of: &Var) -> bool
    ensures { result ≡ is_constant_pointer (Some of.now.kind) }
{
    match of.kind {
        VarKind::Scalar(_) => false,
        VarKind::Pointer { space, .. } => match space {
            Space::Constant => true,
            Space::Global | Space::Local | Space::Private => false,
        },
    }
}

// Whether a root leads to constant memory.
fn is_constant(own: &Function, root: Root) -> bool
    ensures { result ≡ is_constant_root (function_of own.now) root }
{
    match root {
        Root::Constant(_) => true,
        Root::Local(_) | Root::Private(_) => false,
        Root::Param(n) => {
            if n >= own.params {
                return false;
            }
            match own.vars.get(n as usize) {
                None => false,
                Some(variable) => is_constant_variable(variable),
            }
        }
    }
}

/// Whether one of the expressions varies.
#[cycle(expressions)]
pub(crate) fn operands(list: &[Expr], own: &Function, at: Spot, known: &mut Known) -> bool
    ensures varies { result ≡ (spec.seen_among (function_of own.now) at false (listed_expressions list.now)
        (spec.unseen (state_of known.old))).varies }
    ensures known { state_of known.new ≡
        (spec.seen_among (function_of own.now) at false (listed_expressions list.now)
        (spec.unseen (state_of known.old))).state }
{
    let mut varies = false;
    for e in list {
        let one = expression(e, own, at, known);
        varies = varies || one;
    }
    varies
}

/// Notes what a call of a function passes to its parameters.
#[cycle(expressions)]
fn arguments(list: &[Arg], function: u32, own: &Function, at: Spot, known: &mut Known)
    ensures { state_of known.new ≡ spec.seen_arguments (function_of own.now) at function 0
        (listed_arguments list.now) (state_of known.old) }
{
    for (parameter, a) in list.iter().enumerate() {
        let varies = argument(a, own, at, known);
        pass(known, at, function, parameter, varies);
    }
}

#[cycle(expressions)]
fn argument(a: &Arg, own: &Function, at: Spot, known: &mut Known) -> bool
    ensures varies { result ≡ (spec.seen_in (function_of own.now) at (argument_of a.now)
        (state_of known.old)).varies }
    ensures known { state_of known.new ≡
        (spec.seen_in (function_of own.now) at (argument_of a.now) (state_of known.old)).state }
{
    match a {
        Arg::Value(e) => expression(e, own, at, known),
        Arg::Offset { index, .. } => expression(index, own, at, known),
    }
}

// Notes what an assignment sets, if it is a variable.
fn set_target(target: &Target, at: Spot, varies: bool, known: &mut Known)
    ensures { state_of known.new ≡ set_target_of at target.now varies (state_of known.old) }
{
    if let Target::Var(x) = target {
        assign(known, at, *x as usize, varies);
    }
}

/// Whether the old value of a target varies.
#[cycle(expressions)]
fn old_value(target: &Target, own: &Function, at: Spot, known: &mut Known) -> bool
    ensures varies { result ≡ (seen_target (function_of own.now) at target.now (state_of known.old)).varies }
    ensures known { state_of known.new ≡
        (seen_target (function_of own.now) at target.now (state_of known.old)).state }
{
    match target {
        Target::Var(x) => variable_at(known, at.function, *x as usize).varies,
        Target::Element { index, .. } => {
            let _ = expression(index, own, at, known);
            true
        }
    }
}

/// Whether an expression varies by what is known; what it assigns and passes is noted.
#[cycle(expressions)]
pub(crate) fn expression(e: &Expr, own: &Function, at: Spot, known: &mut Known) -> bool
    ensures varies { result ≡ (spec.seen_in (function_of own.now) at (expression_of e.now)
        (state_of known.old)).varies }
    ensures known { state_of known.new ≡
        (spec.seen_in (function_of own.now) at (expression_of e.now) (state_of known.old)).state }
{
    match e {
        Expr::Literal { .. } => false,
        Expr::Variable(x) => variable_at(known, at.function, *x as usize).varies,
        Expr::Unary { a, .. } | Expr::Convert { a, .. } => expression(a, own, at, known),
        Expr::Binary { a, b, .. } | Expr::Then { a, b } => {
            let one = expression(a, own, at, known);
            let other = expression(b, own, at, known);
            one || other
        }
        Expr::Both { site, a, b } | Expr::Either { site, a, b } => {
            let test = expression(a, own, at, known);
            let right = expression(b, own, under(at, *site, test), known);
            test || right
        }
        Expr::Choose {
            site,
            test,
            yes,
            no,
        } => {
            let tested = expression(test, own, at, known);
            let inner = under(at, *site, tested);
            let chosen = expression(yes, own, inner, known);
            let other = expression(no, own, inner, known);
            tested || (chosen || other)
        }
        Expr::Load { root, index, .. } => {
            let varies = expression(index, own, at, known);
            !is_constant(own, *root) || varies
        }
        Expr::Assign { target, value } => {
            let _ = old_value(target, own, at, known);
            let varies = expression(value, own, at, known);
            set_target(target, at, varies, known);
            varies
        }
        Expr::Update { target, value, .. } => {
            let old = old_value(target, own, at, known);
            let new = expression(value, own, at, known);
            let varies = old || new;
            set_target(target, at, varies, known);
            varies
        }
        Expr::Call { function, args, .. } => {
            arguments(args, *function, own, at, known);
            result_at(known, *function as usize).varies
        }
        Expr::Builtin { args, .. } => operands(args, own, at, known),
        Expr::Ask { what, dim } => {
            let varies = expression(dim, own, at, known);
            is_own(*what) || varies
        }
    }
}

/// The same of an expression that may be absent.
pub(crate) fn optional(e: &Option<Expr>, own: &Function, at: Spot, known: &mut Known) -> bool
    ensures varies { result ≡ (spec.seen_optional (function_of own.now) at (optional_expression e.now)
        (state_of known.old)).varies }
    ensures known { state_of known.new ≡
        (spec.seen_optional (function_of own.now) at (optional_expression e.now) (state_of known.old)).state }
{
    match e {
        None => false,
        Some(e) => expression(e, own, at, known),
    }
}
