//! Expressions as lines, each call in place. The value of an expression takes the place of the value
//! before, so that what stands on the stack for each level of nesting is small.

ghost use Rattle.std.specs.Prelude.{◌≡◌, true, IfOk, OnOk};
ghost use Rattle.cl_model.specs.View.{expression_of, assigned, listed_expressions, argument_of};
ghost use Rattle.kir.specs.Listed.{lines_of};
ghost use Rattle.kir.specs.Tree.{joined_to};
ghost use Rattle.cl_model.specs.Listed.{listed_arguments};
ghost use Rattle.kir_lower.specs.Code.{expression_code, operands_code, part_code};
ghost use Rattle.kir_lower.specs.Forms.{is_operation, is_pair, is_load, is_application, is_decision, is_alternative};
ghost use Rattle.kir_lower.specs.Forms.{is_update, is_element_update, is_call};
ghost use Rattle.kir_lower.specs.View.{made_of, instance_of, calls_in};

use crate::actions::{Change, Element, Part, put_assigned, put_stored};
use crate::entering::{enter, put_parameters, roots_in};
use crate::places::{Callee, Instance, Made, Value, constant, function_at, root_in};
use crate::statements::put_body;
use crate::steps::{
    step_answer, step_binary, step_both, step_builtin, step_changed, step_changed_element,
    step_choice, step_converted, step_either, step_loaded, step_truth, step_unary, step_variable,
};
use cl_model::{Arg, Expr, Target};
use kir::Line;
use std::alloc::Global;
use wg_num::{Memory, push};

/// The lines of an expression, whose value takes the place of the value before.
#[cycle(lowering)]
#[tactic(auto, using(crate::proofs::Lists::joins), unfolding(crate::specs::Code::expression_code))]
#[inline(never)]
pub fn put_expression(
    alloc: Global,
    here: &Instance<'_>,
    made: &mut Made,
    lines: &mut Vec<Line>,
    e: &Expr,
    value: &mut Value,
) -> Result<(), Memory>
    ensures lines { OnOk result (lines_of lines.new.items ≡ joined_to (lines_of lines.old.items)
        (expression_code (calls_in here.now) (instance_of here.now) (expression_of e.now) (made_of made.old)).lines) }
    ensures value { OnOk result (value.new ≡
        (expression_code (calls_in here.now) (instance_of here.now) (expression_of e.now) (made_of made.old)).value) }
    ensures made { OnOk result (made_of made.new ≡
        (expression_code (calls_in here.now) (instance_of here.now) (expression_of e.now) (made_of made.old)).made) }
{
    match e {
        Expr::Literal { value: number, of } => {
            *value = constant(*number, *of);
            Ok(())
        }
        Expr::Variable(x) => step_variable(here, made, lines, *x, value),
        Expr::Unary { .. } | Expr::Convert { .. } | Expr::Ask { .. } | Expr::Then { .. } => {
            put_operation(alloc, here, made, lines, e, value)
        }
        Expr::Binary { .. } => put_pair(alloc, here, made, lines, e, value),
        Expr::Load { .. } => put_load(alloc, here, made, lines, e, value),
        Expr::Builtin { .. } => put_application(alloc, here, made, lines, e, value),
        Expr::Both { .. } | Expr::Either { .. } => put_decision(alloc, here, made, lines, e, value),
        Expr::Choose { .. } => put_alternative(alloc, here, made, lines, e, value),
        Expr::Assign {
            target,
            value: from,
        } => put_assignment(alloc, here, made, lines, target, from, value),
        Expr::Update { target, .. } => match target {
            Target::Var(_) => put_update(alloc, here, made, lines, e, value),
            Target::Element { .. } => put_element_update(alloc, here, made, lines, e, value),
        },
        Expr::Call { .. } => put_call(alloc, here, made, lines, e, value),
    }
}

/// The lines of an operator with one operand, a conversion, a work-item function or `a, b`.
#[cycle(lowering)]
#[tactic(auto, using(crate::proofs::Lists::joins), unfolding(crate::specs::Code::expression_code))]
#[inline(never)]
fn put_operation(
    alloc: Global,
    here: &Instance<'_>,
    made: &mut Made,
    lines: &mut Vec<Line>,
    e: &Expr,
    value: &mut Value,
) -> Result<(), Memory>
    requires { is_operation e.now ≡ true }
    ensures lines { OnOk result (lines_of lines.new.items ≡ joined_to (lines_of lines.old.items)
        (expression_code (calls_in here.now) (instance_of here.now) (expression_of e.now) (made_of made.old)).lines) }
    ensures value { OnOk result (value.new ≡
        (expression_code (calls_in here.now) (instance_of here.now) (expression_of e.now) (made_of made.old)).value) }
    ensures made { OnOk result (made_of made.new ≡
        (expression_code (calls_in here.now) (instance_of here.now) (expression_of e.now) (made_of made.old)).made) }
{
    match e {
        Expr::Unary { op, of, a } => {
            put_expression(alloc, here, made, lines, a, value)?;
            step_unary(made, lines, *op, *of, value)
        }
        Expr::Convert { to, a } => {
            put_expression(alloc, here, made, lines, a, value)?;
            step_converted(made, lines, *to, value)
        }
        Expr::Ask { what, dim } => {
            put_expression(alloc, here, made, lines, dim, value)?;
            step_answer(made, lines, *what, value)
        }
        Expr::Then { a, b } => {
            put_expression(alloc, here, made, lines, a, value)?;
            put_expression(alloc, here, made, lines, b, value)
        }
        _ => unreachable!(),
    }
}

/// The lines of an operator with two operands.
#[cycle(lowering)]
#[tactic(auto, using(crate::proofs::Lists::joins), unfolding(crate::specs::Code::expression_code))]
#[inline(never)]
fn put_pair(
    alloc: Global,
    here: &Instance<'_>,
    made: &mut Made,
    lines: &mut Vec<Line>,
    e: &Expr,
    value: &mut Value,
) -> Result<(), Memory>
    requires { is_pair e.now ≡ true }
    ensures lines { OnOk result (lines_of lines.new.items ≡ joined_to (lines_of lines.old.items)
        (expression_code (calls_in here.now) (instance_of here.now) (expression_of e.now) (made_of made.old)).lines) }
    ensures value { OnOk result (value.new ≡
        (expression_code (calls_in here.now) (instance_of here.now) (expression_of e.now) (made_of made.old)).value) }
    ensures made { OnOk result (made_of made.new ≡
        (expression_code (calls_in here.now) (instance_of here.now) (expression_of e.now) (made_of made.old)).made) }
{
    match e {
        Expr::Binary { op, of, a, b } => {
            put_expression(alloc, here, made, lines, a, value)?;
            let first = *value;
            put_expression(alloc, here, made, lines, b, value)?;
            step_binary(made, lines, *op, *of, &first, value)
        }
        _ => unreachable!(),
    }
}

/// The lines of a load.
#[cycle(lowering)]
#[tactic(auto, using(crate::proofs::Lists::joins), unfolding(crate::specs::Code::expression_code))]
#[inline(never)]
fn put_load(
    alloc: Global,
    here: &Instance<'_>,
    made: &mut Made,
    lines: &mut Vec<Line>,
    e: &Expr,
    value: &mut Value,
) -> Result<(), Memory>
    requires { is_load e.now ≡ true }
    ensures lines { OnOk result (lines_of lines.new.items ≡ joined_to (lines_of lines.old.items)
        (expression_code (calls_in here.now) (instance_of here.now) (expression_of e.now) (made_of made.old)).lines) }
    ensures value { OnOk result (value.new ≡
        (expression_code (calls_in here.now) (instance_of here.now) (expression_of e.now) (made_of made.old)).value) }
    ensures made { OnOk result (made_of made.new ≡
        (expression_code (calls_in here.now) (instance_of here.now) (expression_of e.now) (made_of made.old)).made) }
{
    match e {
        Expr::Load {
            site,
            element,
            root,
            index,
        } => {
            put_expression(alloc, here, made, lines, index, value)?;
            let element = Element {
                site: *site,
                of: *element,
                root: root_in(here, *root)?,
                index: value.atom,
            };
            step_loaded(made, lines, &element, value)
        }
        _ => unreachable!(),
    }
}

/// The lines of a built-in function.
#[cycle(lowering)]
#[tactic(auto, using(crate::proofs::Lists::joins), unfolding(crate::specs::Code::expression_code))]
#[inline(never)]
fn put_application(
    alloc: Global,
    here: &Instance<'_>,
    made: &mut Made,
    lines: &mut Vec<Line>,
    e: &Expr,
    value: &mut Value,
) -> Result<(), Memory>
    requires { is_application e.now ≡ true }
    ensures lines { OnOk result (lines_of lines.new.items ≡ joined_to (lines_of lines.old.items)
        (expression_code (calls_in here.now) (instance_of here.now) (expression_of e.now) (made_of made.old)).lines) }
    ensures value { OnOk result (value.new ≡
        (expression_code (calls_in here.now) (instance_of here.now) (expression_of e.now) (made_of made.old)).value) }
    ensures made { OnOk result (made_of made.new ≡
        (expression_code (calls_in here.now) (instance_of here.now) (expression_of e.now) (made_of made.old)).made) }
{
    match e {
        Expr::Builtin { f, of, args } => {
            let values = put_expressions(alloc, here, made, lines, args, value)?;
            step_builtin(alloc, made, lines, *f, *of, &values, value)
        }
        _ => unreachable!(),
    }
}

/// The lines of `&&` or `||`.
#[cycle(lowering)]
#[tactic(auto, using(crate::proofs::Lists::joins), unfolding(crate::specs::Code::expression_code))]
#[inline(never)]
fn put_decision(
    alloc: Global,
    here: &Instance<'_>,
    made: &mut Made,
    lines: &mut Vec<Line>,
    e: &Expr,
    value: &mut Value,
) -> Result<(), Memory>
    requires { is_decision e.now ≡ true }
    ensures lines { OnOk result (lines_of lines.new.items ≡ joined_to (lines_of lines.old.items)
        (expression_code (calls_in here.now) (instance_of here.now) (expression_of e.now) (made_of made.old)).lines) }
    ensures value { OnOk result (value.new ≡
        (expression_code (calls_in here.now) (instance_of here.now) (expression_of e.now) (made_of made.old)).value) }
    ensures made { OnOk result (made_of made.new ≡
        (expression_code (calls_in here.now) (instance_of here.now) (expression_of e.now) (made_of made.old)).made) }
{
    match e {
        Expr::Both { site, a, b } => {
            put_expression(alloc, here, made, lines, a, value)?;
            let test = *value;
            let mut inside = Vec::new(alloc);
            put_truth_of(alloc, here, made, &mut inside, b, value)?;
            step_both(alloc, made, lines, *site, &test, inside, value)
        }
        Expr::Either { site, a, b } => {
            put_expression(alloc, here, made, lines, a, value)?;
            let test = *value;
            let mut inside = Vec::new(alloc);
            put_truth_of(alloc, here, made, &mut inside, b, value)?;
            step_either(alloc, made, lines, *site, &test, inside, value)
        }
        _ => unreachable!(),
    }
}

/// The lines of whether an expression is not 0.
#[cycle(lowering)]
#[tactic(auto, using(crate::proofs::Lists::joins), unfolding(crate::specs::Code::expression_code))]
#[inline(never)]
fn put_truth_of(
    alloc: Global,
    here: &Instance<'_>,
    made: &mut Made,
    lines: &mut Vec<Line>,
    e: &Expr,
    value: &mut Value,
) -> Result<(), Memory>
    ensures lines { OnOk result (lines_of lines.new.items ≡ joined_to (lines_of lines.old.items)
        (part_code (calls_in here.now) (instance_of here.now) true (expression_of e.now) (made_of made.old)).lines) }
    ensures value { OnOk result (value.new ≡
        (part_code (calls_in here.now) (instance_of here.now) true (expression_of e.now) (made_of made.old)).value) }
    ensures made { OnOk result (made_of made.new ≡
        (part_code (calls_in here.now) (instance_of here.now) true (expression_of e.now) (made_of made.old)).made) }
{
    put_expression(alloc, here, made, lines, e, value)?;
    step_truth(made, lines, value)
}

/// The lines of `?:`.
#[cycle(lowering)]
#[tactic(auto, using(crate::proofs::Lists::joins), unfolding(crate::specs::Code::expression_code))]
#[inline(never)]
fn put_alternative(
    alloc: Global,
    here: &Instance<'_>,
    made: &mut Made,
    lines: &mut Vec<Line>,
    e: &Expr,
    value: &mut Value,
) -> Result<(), Memory>
    requires { is_alternative e.now ≡ true }
    ensures lines { OnOk result (lines_of lines.new.items ≡ joined_to (lines_of lines.old.items)
        (expression_code (calls_in here.now) (instance_of here.now) (expression_of e.now) (made_of made.old)).lines) }
    ensures value { OnOk result (value.new ≡
        (expression_code (calls_in here.now) (instance_of here.now) (expression_of e.now) (made_of made.old)).value) }
    ensures made { OnOk result (made_of made.new ≡
        (expression_code (calls_in here.now) (instance_of here.now) (expression_of e.now) (made_of made.old)).made) }
{
    match e {
        Expr::Choose {
            site,
            test,
            yes,
            no,
        } => {
            put_expression(alloc, here, made, lines, test, value)?;
            let test = *value;
            let mut first = Vec::new(alloc);
            put_expression(alloc, here, made, &mut first, yes, value)?;
            let chosen = *value;
            let mut second = Vec::new(alloc);
            put_expression(alloc, here, made, &mut second, no, value)?;
            let yes = Part {
                lines: first,
                value: chosen,
            };
            step_choice(made, lines, *site, &test, yes, second, value)
        }
        _ => unreachable!(),
    }
}

/// The lines of an assignment.
#[cycle(lowering)]
#[tactic(auto, using(crate::proofs::Lists::joins), unfolding(crate::specs::Code::expression_code))]
#[inline(never)]
fn put_assignment(
    alloc: Global,
    here: &Instance<'_>,
    made: &mut Made,
    lines: &mut Vec<Line>,
    target: &Target,
    from: &Expr,
    value: &mut Value,
) -> Result<(), Memory>
    ensures lines { OnOk result (lines_of lines.new.items ≡ joined_to (lines_of lines.old.items)
        (expression_code (calls_in here.now) (instance_of here.now) (assigned target.now (expression_of from.now))
        (made_of made.old)).lines) }
    ensures value { OnOk result (value.new ≡
        (expression_code (calls_in here.now) (instance_of here.now) (assigned target.now (expression_of from.now))
        (made_of made.old)).value) }
    ensures made { OnOk result (made_of made.new ≡
        (expression_code (calls_in here.now) (instance_of here.now) (assigned target.now (expression_of from.now))
        (made_of made.old)).made) }
{
    match target {
        Target::Var(x) => {
            put_expression(alloc, here, made, lines, from, value)?;
            put_assigned(here, lines, *x, *value)
        }
        Target::Element {
            site,
            element,
            root,
            index,
        } => {
            put_expression(alloc, here, made, lines, index, value)?;
            let index = value.atom;
            put_expression(alloc, here, made, lines, from, value)?;
            let element = Element {
                site: *site,
                of: *element,
                root: root_in(here, *root)?,
                index,
            };
            put_stored(lines, element, value.atom)
        }
    }
}

/// The lines of a compound assignment, `++` or `--` of a variable (C99, sections 6.5.2.4, 6.5.3.1 and 6.5.16.2).
#[cycle(lowering)]
#[tactic(auto, using(crate::proofs::Lists::joins), unfolding(crate::specs::Code::expression_code))]
#[inline(never)]
fn put_update(
    alloc: Global,
    here: &Instance<'_>,
    made: &mut Made,
    lines: &mut Vec<Line>,
    e: &Expr,
    value: &mut Value,
) -> Result<(), Memory>
    requires { is_update e.now ≡ true }
    ensures lines { OnOk result (lines_of lines.new.items ≡ joined_to (lines_of lines.old.items)
        (expression_code (calls_in here.now) (instance_of here.now) (expression_of e.now) (made_of made.old)).lines) }
    ensures value { OnOk result (value.new ≡
        (expression_code (calls_in here.now) (instance_of here.now) (expression_of e.now) (made_of made.old)).value) }
    ensures made { OnOk result (made_of made.new ≡
        (expression_code (calls_in here.now) (instance_of here.now) (expression_of e.now) (made_of made.old)).made) }
{
    match e {
        Expr::Update {
            target,
            op,
            of,
            back,
            value: by,
            old,
        } => {
            let change = Change {
                op: *op,
                of: *of,
                back: *back,
                old: *old,
            };
            match target {
                Target::Var(x) => {
                    step_variable(here, made, lines, *x, value)?;
                    let was = *value;
                    put_expression(alloc, here, made, lines, by, value)?;
                    step_changed(here, made, lines, *x, change, &was, value)
                }
                Target::Element { .. } => unreachable!(),
            }
        }
        _ => unreachable!(),
    }
}

/// The lines of a compound assignment, `++` or `--` of an element.
#[cycle(lowering)]
#[tactic(auto, using(crate::proofs::Lists::joins), unfolding(crate::specs::Code::expression_code))]
#[inline(never)]
fn put_element_update(
    alloc: Global,
    here: &Instance<'_>,
    made: &mut Made,
    lines: &mut Vec<Line>,
    e: &Expr,
    value: &mut Value,
) -> Result<(), Memory>
    requires { is_element_update e.now ≡ true }
    ensures lines { OnOk result (lines_of lines.new.items ≡ joined_to (lines_of lines.old.items)
        (expression_code (calls_in here.now) (instance_of here.now) (expression_of e.now) (made_of made.old)).lines) }
    ensures value { OnOk result (value.new ≡
        (expression_code (calls_in here.now) (instance_of here.now) (expression_of e.now) (made_of made.old)).value) }
    ensures made { OnOk result (made_of made.new ≡
        (expression_code (calls_in here.now) (instance_of here.now) (expression_of e.now) (made_of made.old)).made) }
{
    match e {
        Expr::Update {
            target,
            op,
            of,
            back,
            value: by,
            old,
        } => {
            let change = Change {
                op: *op,
                of: *of,
                back: *back,
                old: *old,
            };
            match target {
                Target::Var(_) => unreachable!(),
                Target::Element {
                    site,
                    element,
                    root,
                    index,
                } => {
                    put_expression(alloc, here, made, lines, index, value)?;
                    let element = Element {
                        site: *site,
                        of: *element,
                        root: root_in(here, *root)?,
                        index: value.atom,
                    };
                    step_loaded(made, lines, &element, value)?;
                    let was = *value;
                    put_expression(alloc, here, made, lines, by, value)?;
                    step_changed_element(made, lines, &element, change, &was, value)
                }
            }
        }
        _ => unreachable!(),
    }
}

/// The lines of expressions in order, and their values.
#[cycle(lowering)]
#[tactic(auto, using(crate::proofs::Lists::joins), unfolding(crate::specs::Code::expression_code))]
#[inline(never)]
pub fn put_expressions(
    alloc: Global,
    here: &Instance<'_>,
    made: &mut Made,
    lines: &mut Vec<Line>,
    list: &[Expr],
    value: &mut Value,
) -> Result<Vec<Value>, Memory>
    ensures lines { OnOk result (lines_of lines.new.items ≡ joined_to (lines_of lines.old.items)
        (operands_code (calls_in here.now) (instance_of here.now) (listed_expressions list.now)
        (made_of made.old)).lines) }
    ensures values { IfOk result (λ v. v.items ≡
        (operands_code (calls_in here.now) (instance_of here.now) (listed_expressions list.now)
        (made_of made.old)).values) }
    ensures made { OnOk result (made_of made.new ≡
        (operands_code (calls_in here.now) (instance_of here.now) (listed_expressions list.now)
        (made_of made.old)).made) }
{
    let mut values = Vec::new(alloc);
    let mut rest = list;
    while let Some((e, others)) = rest.split_first() {
        put_expression(alloc, here, made, lines, e, value)?;
        push(&mut values, *value)?;
        rest = others;
    }
    Ok(values)
}

/// The lines of an argument.
#[cycle(lowering)]
#[tactic(auto, using(crate::proofs::Lists::joins), unfolding(crate::specs::Code::expression_code))]
#[inline(never)]
fn put_argument(
    alloc: Global,
    here: &Instance<'_>,
    made: &mut Made,
    lines: &mut Vec<Line>,
    argument: &Arg,
    value: &mut Value,
) -> Result<(), Memory>
    ensures lines { OnOk result (lines_of lines.new.items ≡ joined_to (lines_of lines.old.items)
        (expression_code (calls_in here.now) (instance_of here.now) (argument_of argument.now)
        (made_of made.old)).lines) }
    ensures value { OnOk result (value.new ≡
        (expression_code (calls_in here.now) (instance_of here.now) (argument_of argument.now)
        (made_of made.old)).value) }
    ensures made { OnOk result (made_of made.new ≡
        (expression_code (calls_in here.now) (instance_of here.now) (argument_of argument.now)
        (made_of made.old)).made) }
{
    match argument {
        Arg::Value(e) => put_expression(alloc, here, made, lines, e, value),
        Arg::Offset { index, .. } => put_expression(alloc, here, made, lines, index, value),
    }
}

/// The lines of arguments in order, and their values; that of a pointer is its offset.
#[cycle(lowering)]
#[tactic(auto, using(crate::proofs::Lists::joins), unfolding(crate::specs::Code::expression_code))]
#[inline(never)]
fn put_arguments(
    alloc: Global,
    here: &Instance<'_>,
    made: &mut Made,
    lines: &mut Vec<Line>,
    list: &[Arg],
    value: &mut Value,
) -> Result<Vec<Value>, Memory>
    ensures lines { OnOk result (lines_of lines.new.items ≡ joined_to (lines_of lines.old.items)
        (operands_code (calls_in here.now) (instance_of here.now) (listed_arguments list.now)
        (made_of made.old)).lines) }
    ensures values { IfOk result (λ v. v.items ≡
        (operands_code (calls_in here.now) (instance_of here.now) (listed_arguments list.now)
        (made_of made.old)).values) }
    ensures made { OnOk result (made_of made.new ≡
        (operands_code (calls_in here.now) (instance_of here.now) (listed_arguments list.now)
        (made_of made.old)).made) }
{
    let mut values = Vec::new(alloc);
    let mut rest = list;
    while let Some((argument, others)) = rest.split_first() {
        put_argument(alloc, here, made, lines, argument, value)?;
        push(&mut values, *value)?;
        rest = others;
    }
    Ok(values)
}

/// The lines of a call, with the function's own in place.
#[cycle(lowering)]
#[tactic(auto, using(crate::proofs::Lists::joins), unfolding(crate::specs::Code::expression_code, crate::specs::Whole::call_code))]
#[inline(never)]
fn put_call(
    alloc: Global,
    here: &Instance<'_>,
    made: &mut Made,
    lines: &mut Vec<Line>,
    e: &Expr,
    value: &mut Value,
) -> Result<(), Memory>
    requires { is_call e.now ≡ true }
    ensures lines { OnOk result (lines_of lines.new.items ≡ joined_to (lines_of lines.old.items)
        (expression_code (calls_in here.now) (instance_of here.now) (expression_of e.now) (made_of made.old)).lines) }
    ensures value { OnOk result (value.new ≡
        (expression_code (calls_in here.now) (instance_of here.now) (expression_of e.now) (made_of made.old)).value) }
    ensures made { OnOk result (made_of made.new ≡
        (expression_code (calls_in here.now) (instance_of here.now) (expression_of e.now) (made_of made.old)).made) }
{
    match e {
        Expr::Call {
            site,
            function,
            args,
        } => {
            let called = function_at(here.program, *function)?;
            let roots = roots_in(alloc, here, args)?;
            let values = put_arguments(alloc, here, made, lines, args, value)?;
            let callee = Callee {
                site: *site,
                function: *function,
                roots,
            };
            let there = enter(alloc, here, made, callee, called)?;
            put_parameters(lines, there.base, &values)?;
            put_body(alloc, &there, made, lines, called, value)
        }
        _ => unreachable!(),
    }
}
