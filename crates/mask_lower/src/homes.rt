//! The code at the ends of a region.

ghost use Rattle.std.specs.Prelude.{◌≡◌, ◌++◌, false, slice_get, OnOk};
ghost use Rattle.kir.specs.Listed.{lines_of};
ghost use Rattle.mask_lower.specs.Registers.{frame_of};
ghost use Rattle.mask_lower.specs.Homes as spec;
ghost use Rattle.mask_lower.specs.Lowered.{vote_code};
ghost use Rattle.mask_lower.specs.Uses as table;

use crate::masks::lower_test;
use crate::placing::cell_at;
use crate::registers::{Free, Layout, Operand, mask_reg, slot_reg};
use crate::setting::{FirstUse, first_uses, is_set_first};
use ctx_plan::Home;
use kir::{Atom, Line};
use lane_code::{Reg, Step};
use std::alloc::Global;
use wg_num::{Memory, push};

/// The home of a cell.
fn home_of(homes: &Vec<Home>, cell: usize) -> Option<Home>
    ensures { result ≡ slice_get homes.now.items cell }
{
    homes.get(cell).copied()
}

/// A register gets what the home has.
fn lower_get(code: &mut Vec<Step>, to: Reg, home: Option<Home>) -> Result<(), Memory>
    ensures { OnOk result (code.new.items ≡ code.old.items ++ spec.get_code to home) }
{
    match home {
        None | Some(Home::Register) => Ok(()),
        Some(Home::Column(column)) => {
            push(code, Step::ColumnGet { column, to })?;
            Ok(())
        }
        Some(Home::Once(slot)) => {
            push(
                code,
                Step::OnceGet {
                    slot,
                    to: slot_reg(),
                },
            )?;
            push(
                code,
                Step::Spread {
                    to,
                    from: slot_reg(),
                },
            )?;
            Ok(())
        }
    }
}

/// A cell gets what its home has, if it is named and not set first.
fn lower_cell(
    code: &mut Vec<Step>,
    cell: Option<Operand>,
    number: usize,
    uses: &Vec<FirstUse>,
    homes: &Vec<Home>,
) -> Result<(), Memory>
    ensures { OnOk result (code.new.items ≡ code.old.items ++ spec.cell_code cell
        (table.is_set_first (table.use_at uses.now.items number) false) (slice_get homes.now.items number)) }
{
    match cell {
        None => Ok(()),
        Some(cell) => {
            if is_set_first(uses, number) {
                Ok(())
            } else {
                lower_get(code, cell.at, home_of(homes, number))?;
                Ok(())
            }
        }
    }
}

/// The named cells that the lines do not set before they read them come from their homes.
pub(crate) fn lower_entry(
    alloc: Global,
    code: &mut Vec<Step>,
    cells: &Vec<Option<Operand>>,
    homes: &Vec<Home>,
    lines: &Vec<Line>,
) -> Result<(), Memory>
    ensures { OnOk result (code.new.items ≡ code.old.items ++ spec.entry_code homes.now.items
        (lines_of lines.now.items) 0 cells.now.items) }
{
    let uses = first_uses(alloc, cells.len(), lines)?;
    let mut number: usize = 0;
    for cell in cells {
        lower_cell(code, *cell, number, &uses, homes)?;
        number += 1;
    }
    Ok(())
}

/// The home gets what all existing lanes have, a slot what the lowest has.
fn lower_put(code: &mut Vec<Step>, cell: Operand, home: Option<Home>) -> Result<(), Memory>
    ensures { OnOk result (code.new.items ≡ code.old.items ++ spec.put_code cell home) }
{
    match home {
        None | Some(Home::Register) => Ok(()),
        Some(Home::Column(column)) => {
            push(
                code,
                Step::ColumnPut {
                    column,
                    from: cell.at,
                    mask: mask_reg(0),
                },
            )?;
            Ok(())
        }
        Some(Home::Once(slot)) => {
            push(
                code,
                Step::First {
                    to: slot_reg(),
                    from: cell.at,
                    of: cell.of,
                    mask: mask_reg(0),
                },
            )?;
            push(
                code,
                Step::OncePut {
                    slot,
                    from: slot_reg(),
                },
            )?;
            Ok(())
        }
    }
}

/// The cells of a list go to their homes.
pub(crate) fn lower_exit(
    code: &mut Vec<Step>,
    cells: &Vec<Option<Operand>>,
    put: &Vec<u32>,
    homes: &Vec<Home>,
) -> Result<(), Memory>
    ensures { OnOk result (code.new.items ≡ code.old.items ++ spec.exit_code homes.now.items cells.now.items
        put.now.items) }
{
    for cell in put {
        let operand = cell_at(cells, *cell);
        lower_put(code, operand, home_of(homes, *cell as usize))?;
    }
    Ok(())
}

/// All existing lanes vote, where there is an answer.
pub(crate) fn lower_vote(
    code: &mut Vec<Step>,
    answer: Option<Atom>,
    layout: &Layout,
    next: Free,
) -> Result<(), Memory>
    ensures { OnOk result (code.new.items ≡ code.old.items ++ vote_code (frame_of layout.now) next answer) }
{
    match answer {
        None => Ok(()),
        Some(answer) => {
            let _after = lower_test(code, layout, next, answer, 1, 0)?;
            push(
                code,
                Step::VotePut {
                    from: mask_reg(1),
                    mask: mask_reg(0),
                },
            )?;
            Ok(())
        }
    }
}
