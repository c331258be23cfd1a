//! The outline of a function: its declarations and its calls, in the order of the text.

ghost use Rattle.std.specs.Prelude.{◌≡◌, ◌∷◌, [], ◌++◌, IfOk, OnOk};
ghost use Rattle.cl_model.specs.Calls.{calls_in, calls_among, calls_in_optional};
ghost use Rattle.cl_model.specs.View.{expression_of, argument_of, listed_expressions, optional_expression};
ghost use Rattle.cl_model.specs.View.{statement_of, listed_statements, function_of};
ghost use Rattle.cl_model.specs.Listed.{listed_arguments};
ghost use Rattle.cl_model.specs.Listed.{listed_arms};
ghost use Rattle.ctx_plan_text.specs.Entries.{call_entries, statement_entries, all_entries, arm_entries};
ghost use Rattle.ctx_plan_text.specs.Entries.{function_entries};

use cl_model::{Arg, Expr, Function, Stmt, SwitchArm, Target};
use std::alloc::Global;
use wg_num::{Memory, push};

/// A declaration of a variable of the function, or a call that stands in its text.
#[derive(Clone, Copy)]
pub(crate) enum Entry {
    Declares(u32),
    Calls { site: u32, function: u32 },
}

fn put_call(entries: &mut Vec<Entry>, site: u32, function: u32) -> Result<(), Memory>
    ensures { OnOk result (entries.new.items ≡ entries.old.items ++ call_entries (record {
      site = site;
      function = function;
    } ∷ [])) }
{
    push(entries, Entry::Calls { site, function })
}

#[cycle(calls)]
fn put_expressions(entries: &mut Vec<Entry>, list: &[Expr]) -> Result<(), Memory>
    ensures { OnOk result (entries.new.items ≡ entries.old.items ++
        call_entries (calls_among (listed_expressions list.now))) }
{
    for e in list {
        put_expression(entries, e)?;
    }
    Ok(())
}

#[cycle(calls)]
fn put_argument(entries: &mut Vec<Entry>, argument: &Arg) -> Result<(), Memory>
    ensures { OnOk result (entries.new.items ≡ entries.old.items ++
        call_entries (calls_in (argument_of argument.now))) }
{
    match argument {
        Arg::Value(e) => put_expression(entries, e),
        Arg::Offset { index, .. } => put_expression(entries, index),
    }
}

#[cycle(calls)]
fn put_arguments(entries: &mut Vec<Entry>, list: &[Arg]) -> Result<(), Memory>
    ensures { OnOk result (entries.new.items ≡ entries.old.items ++
        call_entries (calls_among (listed_arguments list.now))) }
{
    for argument in list {
        put_argument(entries, argument)?;
    }
    Ok(())
}

/// Puts the calls of an expression behind the entries.
#[cycle(calls)]
fn put_expression(entries: &mut Vec<Entry>, e: &Expr) -> Result<(), Memory>
    ensures { OnOk result (entries.new.items ≡ entries.old.items ++ call_entries (calls_in (expression_of e.now))) }
{
    match e {
        Expr::Literal { .. } | Expr::Variable(_) => Ok(()),
        Expr::Unary { a, .. } | Expr::Convert { a, .. } => put_expression(entries, a),
        Expr::Load { index, .. } => put_expression(entries, index),
        Expr::Ask { dim, .. } => put_expression(entries, dim),
        Expr::Binary { a, b, .. }
        | Expr::Both { a, b, .. }
        | Expr::Either { a, b, .. }
        | Expr::Then { a, b } => {
            put_expression(entries, a)?;
            put_expression(entries, b)
        }
        Expr::Choose { test, yes, no, .. } => {
            put_expression(entries, test)?;
            put_expression(entries, yes)?;
            put_expression(entries, no)
        }
        Expr::Assign { target, value } | Expr::Update { target, value, .. } => {
            if let Target::Element { index, .. } = target {
                put_expression(entries, index)?;
            }
            put_expression(entries, value)
        }
        Expr::Call {
            site,
            function,
            args,
        } => {
            put_arguments(entries, args)?;
            put_call(entries, *site, *function)
        }
        Expr::Builtin { args, .. } => put_expressions(entries, args),
    }
}

fn put_optional(entries: &mut Vec<Entry>, e: &Option<Expr>) -> Result<(), Memory>
    ensures { OnOk result (entries.new.items ≡ entries.old.items ++
        call_entries (calls_in_optional (optional_expression e.now))) }
{
    match e {
        None => Ok(()),
        Some(e) => put_expression(entries, e),
    }
}

#[cycle(statements)]
fn put_statements(entries: &mut Vec<Entry>, list: &[Stmt]) -> Result<(), Memory>
    ensures { OnOk result (entries.new.items ≡ entries.old.items ++ all_entries (listed_statements list.now)) }
{
    for s in list {
        put_statement(entries, s)?;
    }
    Ok(())
}

#[cycle(statements)]
fn put_arms(entries: &mut Vec<Entry>, arms: &[SwitchArm]) -> Result<(), Memory>
    ensures { OnOk result (entries.new.items ≡ entries.old.items ++ arm_entries (listed_arms arms.now)) }
{
    for arm in arms {
        put_statements(entries, &arm.body)?;
    }
    Ok(())
}

/// Puts the declarations and calls of a statement behind the entries.
#[cycle(statements)]
fn put_statement(entries: &mut Vec<Entry>, s: &Stmt) -> Result<(), Memory>
    ensures { OnOk result (entries.new.items ≡ entries.old.items ++ statement_entries (statement_of s.now)) }
{
    match s {
        Stmt::Do(e) => put_expression(entries, e),
        Stmt::Declare { var, value } => {
            put_optional(entries, value)?;
            push(entries, Entry::Declares(*var))
        }
        Stmt::Return { value, .. } => put_optional(entries, value),
        Stmt::Fill { values, .. } => put_expressions(entries, values),
        Stmt::Block(list) => put_statements(entries, list),
        Stmt::If { test, yes, no, .. } => {
            put_expression(entries, test)?;
            put_statement(entries, yes)?;
            match no {
                Some(no) => put_statement(entries, no),
                None => Ok(()),
            }
        }
        Stmt::Loop {
            test_first,
            test,
            step,
            body,
            ..
        } => {
            if *test_first {
                put_optional(entries, test)?;
                put_optional(entries, step)?;
                put_statement(entries, body)
            } else {
                put_statement(entries, body)?;
                put_optional(entries, step)?;
                put_optional(entries, test)
            }
        }
        Stmt::Switch { value, arms, .. } => {
            put_expression(entries, value)?;
            put_arms(entries, arms)
        }
        Stmt::Break { .. } | Stmt::Continue { .. } | Stmt::Barrier { .. } => Ok(()),
    }
}

/// The outline of a function, whose parameters are declared at the start of its body.
pub(crate) fn outline_of(alloc: Global, function: &Function) -> Result<Vec<Entry>, Memory>
    ensures { IfOk result (λ v. v.items ≡ function_entries (function_of function.now)) }
{
    let mut entries = Vec::new(alloc);
    for parameter in 0..function.params {
        push(&mut entries, Entry::Declares(parameter))?;
    }
    put_statements(&mut entries, &function.body)?;
    Ok(entries)
}
