//! Which variables vary, as text: a line for each function, and below it one for each of its variables.

use crate::text::{Text, put, put_name, put_place};
use cl_model::{Program, Var};
use diverge::Varying;

fn put_variable(text: &mut Text, number: usize, variable: &Var, varies: bool) {
    text.push_str(if varies { "  varies v" } else { "  once v" });
    put(text, number);
    text.push_str(" ");
    put_name(text, &variable.name);
    text.push_str(" ");
    put_place(text, variable.place);
    text.push_str("\n");
}

fn put_variables(text: &mut Text, variables: &[Var], marks: &[bool]) {
    for (number, variable) in variables.iter().enumerate() {
        if let Some(varies) = marks.get(number) {
            put_variable(text, number, variable, *varies);
        }
    }
}

/// Puts for each variable of each function whether it varies, or is the same once for a group.
pub(crate) fn put_varying(text: &mut Text, program: &Program, varying: &Varying) {
    for (number, function) in program.functions.iter().enumerate() {
        text.push_str("function ");
        put(text, number);
        text.push_str(" ");
        put_name(text, &function.name);
        text.push_str("\n");
        if let Some(marks) = varying.list.get(number) {
            put_variables(text, &function.vars, marks);
        }
    }
}
