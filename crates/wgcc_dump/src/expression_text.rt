//! Expressions of a typed program as text: an operator with its type in front of its operands, in parentheses. `v3` is
//! a variable of the function, `Param(0).Int[..]` an element of an object.

use crate::text::{Text, put, put_constant, put_numbered, put_object, put_typed};
use cl_model::{Arg, Expr, Root, Target};
use wg_num::{Bin, IntType};

/// Puts the number of a site behind a word, as `if@3`.
pub(crate) fn put_site(text: &mut Text, word: &str, site: u32) {
    text.push_str(word);
    put_numbered(text, "@", site);
}

// A change of a target by an operator, with the value that it gives and the type to which it converts.
fn put_update(text: &mut Text, op: Bin, of: IntType, back: IntType, old: bool) {
    text.push_str(if old { "old." } else { "new." });
    put_typed(text, op, of);
    text.push_str(".");
    put(text, back);
}

/// Puts expressions, each behind a blank.
#[cycle(expression)]
pub(crate) fn put_operands(text: &mut Text, list: &[Expr]) {
    for e in list {
        put_operand(text, e);
    }
}

// Arguments; that for a pointer is its object and its offset.
#[cycle(expression)]
fn put_arguments(text: &mut Text, list: &[Arg]) {
    for argument in list {
        put_argument(text, argument);
    }
}

#[cycle(expression)]
fn put_argument(text: &mut Text, argument: &Arg) {
    match argument {
        Arg::Value(e) => put_operand(text, e),
        Arg::Offset { root, index } => {
            text.push_str(" ");
            put(text, *root);
            text.push_str("+");
            put_expression(text, index);
        }
    }
}

// What is assigned to, behind a blank.
#[cycle(expression)]
fn put_target(text: &mut Text, target: &Target) {
    match target {
        Target::Var(n) => put_numbered(text, " v", *n),
        Target::Element {
            site,
            element,
            root,
            index,
        } => {
            text.push_str(" ");
            put_element(text, *site, *element, *root, index);
        }
    }
}

/// Puts an expression behind a blank.
#[cycle(expression)]
pub(crate) fn put_operand(text: &mut Text, e: &Expr) {
    text.push_str(" ");
    put_expression(text, e);
}

// The number of a function that is called, behind the site of the call.
fn put_call(text: &mut Text, site: u32, function: u32) {
    put_site(text, "call", site);
    put_numbered(text, " function ", function);
}

// The word of an expression in parentheses that has no operator and no function of the language: what it does, with its
// site if it has one.
fn put_word(text: &mut Text, e: &Expr) {
    match e {
        Expr::Both { site, .. } => put_site(text, "and", *site),
        Expr::Either { site, .. } => put_site(text, "or", *site),
        Expr::Choose { site, .. } => put_site(text, "choose", *site),
        Expr::Call { site, function, .. } => put_call(text, *site, *function),
        Expr::Then { .. } => text.push_str("then"),
        Expr::Assign { .. } => text.push_str("set"),
        _ => {}
    }
}

// The word of an expression in parentheses: its operator or function with its type, or what it does.
fn put_head(text: &mut Text, e: &Expr) {
    match e {
        Expr::Unary { op, of, .. } => put_typed(text, *op, *of),
        Expr::Binary { op, of, .. } => put_typed(text, *op, *of),
        Expr::Builtin { f, of, .. } => put_typed(text, *f, *of),
        Expr::Convert { to, .. } => put(text, *to),
        Expr::Ask { what, .. } => put(text, *what),
        Expr::Update {
            op,
            of,
            back,
            old,
            ..
        } => put_update(text, *op, *of, *back, *old),
        _ => put_word(text, e),
    }
}

// The operands of an expression that has a target or three operands, in order.
#[cycle(expression)]
fn put_three(text: &mut Text, e: &Expr) {
    match e {
        Expr::Choose { test, yes, no, .. } => {
            put_operand(text, test);
            put_operand(text, yes);
            put_operand(text, no);
        }
        Expr::Assign { target, value } | Expr::Update { target, value, .. } => {
            put_target(text, target);
            put_operand(text, value);
        }
        _ => {}
    }
}

// The operands of an expression that has more than one, in order.
#[cycle(expression)]
fn put_more(text: &mut Text, e: &Expr) {
    match e {
        Expr::Binary { a, b, .. }
        | Expr::Both { a, b, .. }
        | Expr::Either { a, b, .. }
        | Expr::Then { a, b } => {
            put_operand(text, a);
            put_operand(text, b);
        }
        _ => put_three(text, e),
    }
}

// The operands of an expression in parentheses, in order.
#[cycle(expression)]
fn put_parts(text: &mut Text, e: &Expr) {
    match e {
        Expr::Unary { a, .. } | Expr::Convert { a, .. } => put_operand(text, a),
        Expr::Ask { dim, .. } => put_operand(text, dim),
        Expr::Call { args, .. } => put_arguments(text, args),
        Expr::Builtin { args, .. } => put_operands(text, args),
        _ => put_more(text, e),
    }
}

// An expression in parentheses.
#[cycle(expression)]
fn put_operation(text: &mut Text, e: &Expr) {
    text.push_str("(");
    put_head(text, e);
    put_parts(text, e);
    text.push_str(")");
}

#[cycle(expression)]
fn put_element(text: &mut Text, site: u32, element: IntType, root: Root, index: &Expr) {
    put_object(text, root, element);
    put_expression(text, index);
    put_site(text, "]", site);
}

/// Puts an expression.
#[cycle(expression)]
pub(crate) fn put_expression(text: &mut Text, e: &Expr) {
    match e {
        Expr::Literal { value, of } => put_constant(text, *value, *of),
        Expr::Variable(n) => put_numbered(text, "v", *n),
        Expr::Load {
            site,
            element,
            root,
            index,
        } => put_element(text, *site, *element, *root, index),
        _ => put_operation(text, e),
    }
}
