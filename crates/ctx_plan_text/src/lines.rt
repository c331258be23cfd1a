//! The text of a plan.

ghost use Rattle.std.specs.Prelude.{◌≡◌, ◌++◌, IfOk, OnOk, codes, map};
ghost use Rattle.std.specs.List.{flat_map, join_by};
ghost use Rattle.cl_model.specs.View.{program_of};
ghost use Rattle.kir.specs.Listed.{kind_of, cell_of};
ghost use Rattle.kir.specs.View.{kernel_of};
ghost use Rattle.ctx_plan.specs.View.{planned_of};
ghost use Rattle.ctx_plan_text.specs.Entries.{variable_of};
ghost use Rattle.ctx_plan_text.specs.Lines.{place_text, line_text, cell_line, is_kind_of, line_among, plan_lines_of};

use crate::variables::{Variable, variables_of};
use cl_model::Program;
use ctx_plan::{Home, Plan};
use itoa::Buffer;
use kir::{Cell, CellKind, Kernel};
use std::alloc::Global;
use wg_num::{Memory, Place};

fn put(text: &mut Vec<u8>, bytes: &[u8]) -> Result<(), Memory>
    ensures { OnOk result (text.new.items ≡ text.old.items ++ bytes.now) }
{
    match text.extend_from_slice(bytes) {
        Ok(()) => Ok(()),
        Err(_) => Err(Memory),
    }
}

// Whether the cell is that of the variable.
fn is_cell_of(variable: &Variable, kind: &CellKind) -> bool
    ensures { result ≡ is_kind_of (variable_of variable.now) (kind_of kind.now) }
{
    match kind {
        CellKind::Variable {
            calls,
            function,
            var,
            ..
        } => {
            *function == variable.function
                && *var == variable.number
                && calls.as_slice() == variable.calls.as_slice()
        }
        CellKind::Flag | CellKind::Value => false,
    }
}

fn put_place(text: &mut Vec<u8>, place: Place) -> Result<(), Memory>
    ensures { OnOk result (text.new.items ≡ text.old.items ++ place_text place) }
{
    let mut line = Buffer::new();
    let mut column = Buffer::new();
    put(text, line.format(place.line).as_bytes())?;
    put(text, b":")?;
    put(text, column.format(place.column).as_bytes())
}

// Places, each behind a stroke.
fn put_further(text: &mut Vec<u8>, path: &[Place]) -> Result<(), Memory>
    ensures { OnOk result (text.new.items ≡ text.old.items ++ flat_map (λ p. codes "/" ++ place_text p) path.now) }
{
    for place in path {
        put(text, b"/")?;
        put_place(text, *place)?;
    }
    Ok(())
}

// Places, with a stroke between each two.
fn put_path(text: &mut Vec<u8>, path: &[Place]) -> Result<(), Memory>
    ensures { OnOk result (text.new.items ≡ text.old.items ++ join_by place_text (codes "/") path.now) }
{
    let [first, rest @ ..] = path else {
        return Ok(());
    };
    put_place(text, *first)?;
    put_further(text, rest)
}

// The line of a variable that is kept so.
fn put_line(text: &mut Vec<u8>, word: &[u8], path: &[Place], name: &[u8]) -> Result<(), Memory>
    ensures { OnOk result (text.new.items ≡ text.old.items ++ line_text word.now path.now name.now) }
{
    put(text, word)?;
    put(text, b" ")?;
    put_path(text, path)?;
    put(text, b" ")?;
    put(text, name)?;
    put(text, b"\n")
}

// The line of a cell with a home.
fn put_cell(text: &mut Vec<u8>, home: Home, kind: &CellKind) -> Result<(), Memory>
    ensures { OnOk result (text.new.items ≡ text.old.items ++ cell_line home (kind_of kind.now)) }
{
    match kind {
        CellKind::Variable { path, name, .. } => match home {
            Home::Register => Ok(()),
            Home::Column(_) => put_line(text, b"item", path, name.bytes()),
            Home::Once(_) => put_line(text, b"once", path, name.bytes()),
        },
        CellKind::Flag | CellKind::Value => Ok(()),
    }
}

// The line of a variable, whose cell is one of these.
fn put_variable(
    text: &mut Vec<u8>,
    homes: &[Home],
    cells: &[Cell],
    variable: &Variable,
) -> Result<(), Memory>
    ensures { OnOk result (text.new.items ≡ text.old.items ++ line_among homes.now (variable_of variable.now) 0
        (map cell_of cells.now)) }
{
    for n in 0..cells.len() {
        let kind = &cells[n].kind;
        if is_cell_of(variable, kind) {
            return match homes.get(n) {
                Some(home) => put_cell(text, *home, kind),
                None => Ok(()),
            };
        }
    }
    Ok(())
}

/// The text of a plan: one line for each variable that is kept between regions, in the order in
/// which declarations stand in the inlined text: `once` for one value for a group, or `item` for one
/// value for each work-item, the places of the calls that lead to it and of its declaration, and its
/// name.
pub fn plan_text(
    alloc: Global,
    program: &Program,
    kernel: &Kernel,
    plan: &Plan,
) -> Result<Vec<u8>, Memory>
    ensures lines { IfOk result (λ t. t.items ≡ plan_lines_of (program_of program.now) (kernel_of kernel.now)
        (planned_of plan.now)) }
{
    let variables = variables_of(alloc, program)?;
    let mut text = Vec::new(alloc);
    for variable in variables.iter() {
        put_variable(&mut text, &plan.homes, &kernel.cells, variable)?;
    }
    Ok(text)
}
