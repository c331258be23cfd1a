//! Statements of a typed program as text: a line each, and the statements in one below it, two blanks further in.

use crate::expression_text::{put_expression, put_operand, put_operands, put_site};
use crate::text::{Text, indent, put, put_line, put_numbered};
use cl_model::{Expr, Stmt, SwitchArm};

// A word and an expression, where there is one.
fn put_value(text: &mut Text, word: &str, e: &Option<Expr>) {
    match e {
        Some(e) => {
            text.push_str(word);
            put_operand(text, e);
        }
        None => {}
    }
}

// The same as a line, where there is an expression.
fn put_value_line(text: &mut Text, depth: usize, word: &str, e: &Option<Expr>) {
    if e.is_none() {
        return;
    }
    indent(text, depth);
    put_value(text, word, e);
    text.push_str("\n");
}

// What stands in the head of a loop, a line each.
fn put_round(text: &mut Text, depth: usize, test: &Option<Expr>, step: &Option<Expr>) {
    put_value_line(text, depth, "test", test);
    put_value_line(text, depth, "step", step);
}

fn put_declaration(text: &mut Text, var: u32, value: &Option<Expr>) {
    put_numbered(text, "declare v", var);
    put_value(text, " =", value);
}

fn put_filling(text: &mut Text, site: u32, array: u32, values: &[Expr]) {
    put_site(text, "fill", site);
    put_numbered(text, " array ", array);
    put_operands(text, values);
}

fn put_return(text: &mut Text, site: u32, value: &Option<Expr>) {
    put_site(text, "return", site);
    put_value(text, "", value);
}

// The head of a statement that goes on by a value.
fn put_test(text: &mut Text, word: &str, site: u32, test: &Expr) {
    put_site(text, word, site);
    put_operand(text, test);
}

fn put_loop(text: &mut Text, site: u32, test_first: bool) {
    put_site(text, if test_first { "while" } else { "do" }, site);
}

// The line of a statement that has statements in it, without these, or that leads elsewhere.
fn put_way(text: &mut Text, s: &Stmt) {
    match s {
        Stmt::Block(_) => text.push_str("block"),
        Stmt::If { site, test, .. } => put_test(text, "if", *site, test),
        Stmt::Loop {
            site,
            test_first,
            ..
        } => put_loop(text, *site, *test_first),
        Stmt::Switch { site, value, .. } => put_test(text, "switch", *site, value),
        Stmt::Break { site } => put_site(text, "break", *site),
        Stmt::Continue { site } => put_site(text, "continue", *site),
        _ => {}
    }
}

// The line of a statement, without the statements in it.
fn put_head(text: &mut Text, s: &Stmt) {
    match s {
        Stmt::Do(e) => put_expression(text, e),
        Stmt::Declare { var, value } => put_declaration(text, *var, value),
        Stmt::Fill {
            site,
            array,
            values,
        } => put_filling(text, *site, *array, values),
        Stmt::Return { site, value } => put_return(text, *site, value),
        Stmt::Barrier { site } => put_site(text, "barrier", *site),
        _ => put_way(text, s),
    }
}

// The labels of an arm.
fn put_labels(text: &mut Text, arm: &SwitchArm) {
    text.push_str("arm");
    for label in &arm.labels {
        text.push_str(" ");
        put(text, *label);
    }
    text.push_str(if arm.other { " default\n" } else { "\n" });
}

#[cycle(statement)]
fn put_arms(text: &mut Text, depth: usize, arms: &[SwitchArm]) {
    for arm in arms {
        indent(text, depth);
        put_labels(text, arm);
        put_statements(text, depth.saturating_add(1), &arm.body);
    }
}

// The other branch, where there is one.
#[cycle(statement)]
fn put_other(text: &mut Text, depth: usize, no: &Option<Box<Stmt>>) {
    match no {
        Some(no) => {
            put_line(text, depth, "else");
            put_statement(text, depth.saturating_add(1), no);
        }
        None => {}
    }
}

// The statements in a statement at this depth.
#[cycle(statement)]
fn put_below(text: &mut Text, depth: usize, s: &Stmt) {
    match s {
        Stmt::Block(list) => put_statements(text, depth.saturating_add(1), list),
        Stmt::If { yes, no, .. } => {
            put_statement(text, depth.saturating_add(1), yes);
            put_other(text, depth, no);
        }
        Stmt::Loop {
            test,
            step,
            body,
            ..
        } => {
            put_round(text, depth.saturating_add(1), test, step);
            put_statement(text, depth.saturating_add(1), body);
        }
        Stmt::Switch { arms, .. } => put_arms(text, depth.saturating_add(1), arms),
        _ => {}
    }
}

#[cycle(statement)]
fn put_statement(text: &mut Text, depth: usize, s: &Stmt) {
    indent(text, depth);
    put_head(text, s);
    text.push_str("\n");
    put_below(text, depth, s);
}

/// Puts statements at a depth.
#[cycle(statement)]
pub(crate) fn put_statements(text: &mut Text, depth: usize, list: &[Stmt]) {
    for s in list {
        put_statement(text, depth, s);
    }
}
