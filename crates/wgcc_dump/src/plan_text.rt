//! A plan as text: which cells are kept once for the group, which for each item, and which in a register of one region.
//! A cell that is kept between regions has a row; of the others the variables have one, and the rest are counted.

use crate::kernel_text::{is_variable, put_cell_number, put_purpose};
use crate::text::{Text, put, put_numbered};
use ctx_plan::{Home, Plan};
use kir::Cell;

// Where the columns of a row begin, in bytes: the cell, its type, and what it is for.
const CELL_AT: usize = 12;

const TYPE_AT: usize = 28;

const PURPOSE_AT: usize = 34;

// Which cells have the rows of a part.
#[derive(Clone, Copy)]
enum Part {
    Once,
    Column,
    Register,
}

// The row of a cell, where the cell belongs to the part.
fn put_row(text: &mut Text, part: Part, number: usize, cell: &Cell, home: Home) {
    let start = text.len();
    match (part, home) {
        (Part::Once, Home::Once(slot)) => put_numbered(text, "  slot ", slot),
        (Part::Column, Home::Column(column)) => put_numbered(text, "  column ", column),
        (Part::Register, Home::Register) if is_variable(cell) => text.push_str("  register"),
        _ => return,
    }
    text.fill(start, CELL_AT);
    put_cell_number(text, number, cell);
    text.fill(start, TYPE_AT);
    put(text, cell.of);
    text.fill(start, PURPOSE_AT);
    put_purpose(text, cell);
    text.push_str("\n");
}

// A part: what it is with its size, and its rows.
fn put_part(text: &mut Text, title: &str, size: u32, part: Part, cells: &[Cell], plan: &Plan) {
    put_numbered(text, title, size);
    text.push_str("\n");
    for (number, cell) in cells.iter().enumerate() {
        if let Some(home) = plan.homes.get(number) {
            put_row(text, part, number, cell, *home);
        }
    }
}

// How many cells in registers are no variables.
fn plain_registers(cells: &[Cell], plan: &Plan) -> u32 {
    let mut found: u32 = 0;
    for (number, cell) in cells.iter().enumerate() {
        if let (Some(Home::Register), false) = (plan.homes.get(number), is_variable(cell)) {
            found = found.saturating_add(1);
        }
    }
    found
}

/// Puts a part for each kind of home, and the bytes of an item's private arrays.
pub(crate) fn put_plan(text: &mut Text, cells: &[Cell], plan: &Plan) {
    let plain = plain_registers(cells, plan);
    put_part(
        text,
        "kept once for the group, slots: ",
        plan.slots,
        Part::Once,
        cells,
        plan,
    );
    put_part(
        text,
        "kept for each item, columns: ",
        plan.columns,
        Part::Column,
        cells,
        plan,
    );
    put_part(
        text,
        "in a register of one region, flags and values: ",
        plain,
        Part::Register,
        cells,
        plan,
    );
    put_numbered(
        text,
        "private arrays of each item, bytes: ",
        plan.private_bytes,
    );
    text.push_str("\n");
}
