//! A kernel without calls as text: its cells, and a line for each of its lines, two blanks further in for a depth. `%3`
//! is a cell, with the name of its variable behind a point if it has one.

use crate::text::{
    Text, indent, put, put_arrays, put_constant, put_line, put_name, put_numbered, put_object,
    put_place, put_sites, put_tables, put_typed,
};
use cl_model::{Query, Root};
use kir::{Atom, Cell, CellKind, Kernel, Line, Work};
use std::fmt::Debug;
use wg_num::{Bin, IntType, Place, Un};

/// Whether a cell is that of a variable.
pub(crate) fn is_variable(cell: &Cell) -> bool {
    matches!(cell.kind, CellKind::Variable { .. })
}

// The name of the cell's variable behind a point, if it has one.
fn put_variable_name(text: &mut Text, cell: &Cell) {
    if let CellKind::Variable { name, .. } = &cell.kind {
        text.push_str(".");
        put_name(text, name);
    }
}

/// Puts the number of a cell, with the name of its variable, if it has one.
pub(crate) fn put_cell_number(text: &mut Text, number: usize, cell: &Cell) {
    text.push_str("%");
    put(text, number);
    put_variable_name(text, cell);
}

/// The same for the cell of that number.
pub(crate) fn put_cell_name(text: &mut Text, cells: &[Cell], number: u32) {
    put_numbered(text, "%", number);
    if let Some(cell) = cells.get(number as usize) {
        put_variable_name(text, cell);
    }
}

fn put_atom(text: &mut Text, cells: &[Cell], atom: Atom) {
    match atom {
        Atom::Const { value, of } => put_constant(text, value, of),
        Atom::Cell(number) => put_cell_name(text, cells, number),
    }
}

/// Puts an atom behind a blank.
pub(crate) fn put_operand(text: &mut Text, cells: &[Cell], atom: Atom) {
    text.push_str(" ");
    put_atom(text, cells, atom);
}

fn put_operands(text: &mut Text, cells: &[Cell], atoms: &[Atom]) {
    for atom in atoms {
        put_operand(text, cells, *atom);
    }
}

// An operator or a function and what it is applied to.
fn put_applied<T: Copy + Debug>(
    text: &mut Text,
    cells: &[Cell],
    operator: T,
    of: IntType,
    atoms: &[Atom],
) {
    put_typed(text, operator, of);
    put_operands(text, cells, atoms);
}

fn put_unary(text: &mut Text, cells: &[Cell], op: Un, of: IntType, a: Atom) {
    put_applied(text, cells, op, of, &[a]);
}

fn put_binary(text: &mut Text, cells: &[Cell], op: Bin, of: IntType, a: Atom, b: Atom) {
    put_applied(text, cells, op, of, &[a, b]);
}

fn put_conversion(text: &mut Text, cells: &[Cell], to: IntType, a: Atom) {
    text.push_str("Convert.");
    put(text, to);
    put_operand(text, cells, a);
}

fn put_question(text: &mut Text, cells: &[Cell], what: Query, dim: Atom) {
    put(text, what);
    put_operand(text, cells, dim);
}

fn put_copy(text: &mut Text, cells: &[Cell], a: Atom) {
    text.push_str("Copy");
    put_operand(text, cells, a);
}

// What a line computes.
fn put_work(text: &mut Text, cells: &[Cell], work: &Work) {
    match work {
        Work::Unary { op, of, a } => put_unary(text, cells, *op, *of, *a),
        Work::Binary { op, of, a, b } => put_binary(text, cells, *op, *of, *a, *b),
        Work::Builtin { f, of, args } => put_applied(text, cells, *f, *of, args),
        Work::Convert { to, a } => put_conversion(text, cells, *to, *a),
        Work::Ask { what, dim } => put_question(text, cells, *what, *dim),
        Work::Argument(number) => put_numbered(text, "Argument ", *number),
        Work::Copy(a) => put_copy(text, cells, *a),
    }
}

// The site of a line, as ` @3`.
fn put_site(text: &mut Text, site: u32) {
    put_numbered(text, " @", site);
}

// An element of an object, as `Param(0).Int[%3]`.
fn put_element(text: &mut Text, cells: &[Cell], root: Root, element: IntType, index: Atom) {
    put_object(text, root, element);
    put_atom(text, cells, index);
    text.push_str("]");
}

fn put_set(text: &mut Text, cells: &[Cell], to: u32, work: &Work) {
    put_cell_name(text, cells, to);
    text.push_str(" = ");
    put_work(text, cells, work);
}

// A load, up to the site.
fn put_load(text: &mut Text, cells: &[Cell], to: u32, root: Root, element: IntType, index: Atom) {
    put_cell_name(text, cells, to);
    text.push_str(" = load ");
    put_element(text, cells, root, element, index);
}

// A store, up to the site.
fn put_store(
    text: &mut Text,
    cells: &[Cell],
    root: Root,
    element: IntType,
    index: Atom,
    from: Atom,
) {
    text.push_str("store ");
    put_element(text, cells, root, element, index);
    text.push_str(" =");
    put_operand(text, cells, from);
}

// What a line without lines in it does.
fn put_plain(text: &mut Text, cells: &[Cell], line: &Line) {
    match line {
        Line::Set { to, work } => put_set(text, cells, *to, work),
        Line::Load {
            site,
            to,
            element,
            root,
            index,
        } => {
            put_load(text, cells, *to, *root, *element, *index);
            put_site(text, *site);
        }
        Line::Store {
            site,
            element,
            root,
            index,
            from,
        } => {
            put_store(text, cells, *root, *element, *index, *from);
            put_site(text, *site);
        }
        Line::Clear { array } => put_numbered(text, "clear array ", *array),
        Line::Barrier { site } => put_numbered(text, "barrier @", *site),
        Line::If { .. } | Line::Loop { .. } => {}
    }
}

// The head of lines that depend on an atom.
fn put_test(text: &mut Text, cells: &[Cell], word: &str, test: Atom, site: u32) {
    text.push_str(word);
    put_operand(text, cells, test);
    put_site(text, site);
    text.push_str("\n");
}

// Lines below a word of their own, where there are any.
#[cycle(lines)]
fn put_part(text: &mut Text, cells: &[Cell], depth: usize, word: &str, lines: &[Line]) {
    if lines.is_empty() {
        return;
    }
    put_line(text, depth, word);
    put_lines(text, cells, depth.saturating_add(1), lines);
}

// A line that has no lines in it, with its end.
fn put_plain_line(text: &mut Text, cells: &[Cell], line: &Line) {
    put_plain(text, cells, line);
    text.push_str("\n");
}

// A line at a depth, and below it the lines in it.
#[cycle(lines)]
fn put_nested(text: &mut Text, cells: &[Cell], depth: usize, line: &Line) {
    indent(text, depth);
    match line {
        Line::If {
            site,
            test,
            yes,
            no,
        } => {
            put_test(text, cells, "if", *test, *site);
            put_part(text, cells, depth, "then", yes);
            put_part(text, cells, depth, "else", no);
        }
        Line::Loop {
            site,
            test_first,
            test,
            answer,
            body,
        } => {
            put_test(
                text,
                cells,
                if *test_first { "while" } else { "do while" },
                *answer,
                *site,
            );
            put_part(text, cells, depth, "test", test);
            put_part(text, cells, depth, "body", body);
        }
        _ => put_plain_line(text, cells, line),
    }
}

/// Puts lines at a depth.
#[cycle(lines)]
pub(crate) fn put_lines(text: &mut Text, cells: &[Cell], depth: usize, lines: &[Line]) {
    for line in lines {
        put_nested(text, cells, depth, line);
    }
}

// Places with a stroke between each two.
fn put_path(text: &mut Text, path: &[Place]) {
    for (number, place) in path.iter().enumerate() {
        text.push_str(if number == 0 { " " } else { "/" });
        put_place(text, *place);
    }
}

/// Puts where a variable is from, behind a blank: the places of the calls that lead to it and of its declaration. Of a
/// cell that is none it puts what it is.
pub(crate) fn put_purpose(text: &mut Text, cell: &Cell) {
    match &cell.kind {
        CellKind::Variable { path, .. } => put_path(text, path),
        CellKind::Flag => text.push_str(" flag"),
        CellKind::Value => text.push_str(" value"),
    }
}

// The word, the name, the places and the number of a variable.
fn put_variable(text: &mut Text, cell: &Cell) {
    if let CellKind::Variable {
        function,
        var,
        path,
        name,
        ..
    } = &cell.kind
    {
        text.push_str(" variable ");
        put_name(text, name);
        put_path(text, path);
        put_numbered(text, ", v", *var);
        put_numbered(text, " of function ", *function);
    }
}

// What a cell is behind its number: its type, and what it is for. Of a variable these are its name, its places, and its
// number in its function.
fn put_cell(text: &mut Text, cell: &Cell) {
    text.push_str(" ");
    put(text, cell.of);
    if is_variable(cell) {
        put_variable(text, cell);
    } else {
        put_purpose(text, cell);
    }
}

fn put_cells(text: &mut Text, cells: &[Cell]) {
    text.push_str("cells\n");
    for (number, cell) in cells.iter().enumerate() {
        text.push_str("  %");
        put(text, number);
        put_cell(text, cell);
        text.push_str("\n");
    }
}

/// Puts a kernel: its tables, arrays and cells, what each item does, and the places of its sites.
pub(crate) fn put_kernel(text: &mut Text, kernel: &Kernel) {
    put_tables(text, &kernel.tables);
    put_arrays(text, 0, &kernel.arrays);
    put_cells(text, &kernel.cells);
    text.push_str("lines\n");
    put_lines(text, &kernel.cells, 1, &kernel.body);
    put_sites(text, &kernel.sites);
}
