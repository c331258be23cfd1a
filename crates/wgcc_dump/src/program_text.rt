//! A typed program as text: its constant tables, its functions, the number of its kernel and the places of its sites.

use crate::statement_text::put_statements;
use crate::text::{
    Text, put, put_arrays, put_name, put_numbered, put_place, put_sites, put_tables,
};
use cl_model::{Function, Program, Var, VarKind};

// What a variable holds: a number, or an offset into an object.
fn put_kind(text: &mut Text, kind: VarKind) {
    match kind {
        VarKind::Scalar(of) => put(text, of),
        VarKind::Pointer {
            space,
            element,
            root,
        } => {
            put(text, space);
            text.push_str(".");
            put(text, element);
            text.push_str("* into ");
            put(text, root);
        }
    }
}

// A variable behind its number: its type, name and place.
fn put_variable(text: &mut Text, variable: &Var) {
    text.push_str(" ");
    put_kind(text, variable.kind);
    text.push_str(" ");
    put_name(text, &variable.name);
    text.push_str(" ");
    put_place(text, variable.place);
    text.push_str("\n");
}

// Parameters and variables, a line each.
fn put_variables(text: &mut Text, params: u32, variables: &[Var]) {
    for (number, variable) in variables.iter().enumerate() {
        let is_parameter = number < params as usize;
        text.push_str(if is_parameter {
            "  parameter v"
        } else {
            "  variable v"
        });
        put(text, number);
        put_variable(text, variable);
    }
}

// What a function returns, and the size of its work-groups, where that is required.
fn put_head(text: &mut Text, function: &Function) {
    put_name(text, &function.name);
    if let Some(result) = function.result {
        text.push_str(" returns ");
        put(text, result);
    }
    if let Some(sizes) = function.sizes {
        text.push_str(" sizes ");
        put(text, sizes);
    }
    text.push_str("\n");
}

// A function behind its number.
fn put_function(text: &mut Text, function: &Function) {
    put_head(text, function);
    put_variables(text, function.params, &function.vars);
    put_arrays(text, 1, &function.arrays);
    text.push_str("  body\n");
    put_statements(text, 2, &function.body);
}

/// Puts a typed program.
pub(crate) fn put_program(text: &mut Text, program: &Program) {
    put_tables(text, &program.tables);
    for (number, function) in program.functions.iter().enumerate() {
        text.push_str("function ");
        put(text, number);
        text.push_str(" ");
        put_function(text, function);
    }
    put_numbered(text, "kernel function ", program.kernel);
    text.push_str("\n");
    put_sites(text, &program.sites);
}
