//! The homes of cells.

ghost use Rattle.std.specs.Prelude.{◌≡◌, ◌+◌, ◌∷◌, [], ◌++◌, true, map, IfOk, OnOk};
ghost use Rattle.kir.specs.Listed.{cell_of};
ghost use Rattle.ctx_plan.specs.Points.{entry};
ghost use Rattle.ctx_plan.specs.Sharing as spec;
ghost use Rattle.ctx_plan.specs.Made as made;
ghost use Rattle.ctx_plan.specs.View.{varying_of, shares_of, placed_of};
ghost use Rattle.ctx_plan.specs.declared.cells.Kept.TheVariants as kept;

use crate::holding::entry_of;
use crate::plan::Home;
use crate::sharing::{Sharing, sum_of, varying_in};
use diverge::Varying;
use kir::{Cell, CellKind};
use std::alloc::Global;
use wg_num::{Memory, push};

/// What is kept of a variable: nothing, one value for the group, or one for each item in the column
/// with this number.
#[derive(Clone, Copy, PartialEq, Eq, Debug)]
pub enum Kept {
    Nothing,
    One,
    Each(u32),
}

/// The homes so far, and how many columns and slots they take.
#[derive(Drop)]
pub struct Homes {
    pub list: Vec<Home>,
    pub columns: u32,
    pub slots: u32,
}

/// The entry of a list with this number; 0 where there is none.
fn number_at(list: &[u32], place: u32) -> u32
    ensures { result ≡ made.number_at list.now place }
{
    match list.get(place as usize) {
        Some(number) => *number,
        None => 0,
    }
}

/// How many columns the blocks take that stand around the block behind these calls.
fn taken_behind(taken: &[u32], calls: &[u32]) -> Result<u32, Memory>
    ensures { IfOk result (λ n. n ≡ made.taken_behind taken.now calls.now) }
{
    let mut sum: u32 = 0;
    for site in calls {
        sum = sum_of(sum, number_at(taken, *site))?;
    }
    Ok(sum)
}

/// Whether the variable with this number of a function crosses.
fn crosses(sharing: &Sharing, function: u32, variable: u32) -> bool
    ensures { result ≡ entry (spec.row (shares_of sharing.now).crossing function) variable }
{
    match sharing.crossing.get(function as usize) {
        Some(list) => entry_of(list, variable),
        None => false,
    }
}

/// The number of its column among those that the function takes.
fn number_of(sharing: &Sharing, function: u32, variable: u32) -> u32
    ensures { result ≡ made.number_at (spec.row (shares_of sharing.now).numbers function) variable }
{
    match sharing.numbers.get(function as usize) {
        Some(list) => number_at(list, variable),
        None => 0,
    }
}

/// What is kept of the variable with this number of a function behind these calls.
fn kept_of(
    sharing: &Sharing,
    varying: &Varying,
    calls: &[u32],
    function: u32,
    variable: u32,
) -> Result<Kept, Memory>
    ensures { IfOk result (λ k. k ≡ made.kept_of (shares_of sharing.now) (varying_of varying.now) calls.now
        function variable) }
{
    if !crosses(sharing, function, variable) {
        return Ok(Kept::Nothing);
    }
    if !entry_of(varying_in(varying, function), variable) {
        return Ok(Kept::One);
    }
    let behind = taken_behind(&sharing.taken, calls)?;
    let column = sum_of(behind, number_of(sharing, function, variable))?;
    Ok(Kept::Each(column))
}

/// How many columns that needs.
fn columns_for(kept: Kept) -> Result<u32, Memory>
    ensures { IfOk result (λ n. n ≡ made.columns_for kept) }
{
    match kept {
        Kept::Nothing | Kept::One => Ok(0),
        Kept::Each(column) => sum_of(column, 1),
    }
}

/// How many columns the variable of a cell needs.
fn columns_of_cell(sharing: &Sharing, varying: &Varying, cell: &Cell) -> Result<u32, Memory>
    ensures { IfOk result (λ n. n ≡ made.columns_of_kind (shares_of sharing.now) (varying_of varying.now)
        (cell_of cell.now).kind) }
{
    match &cell.kind {
        CellKind::Variable {
            calls,
            function,
            var,
            ..
        } => {
            let kept = kept_of(sharing, varying, calls, *function, *var)?;
            columns_for(kept)
        }
        CellKind::Flag | CellKind::Value => Ok(0),
    }
}

/// How many columns the variables among the cells take.
fn shared_columns(sharing: &Sharing, varying: &Varying, cells: &[Cell]) -> Result<u32, Memory>
    ensures { IfOk result (λ n. n ≡ made.columns_onto (shares_of sharing.now) (varying_of varying.now)
        (map cell_of cells.now) 0) }
{
    let mut columns: u32 = 0;
    for cell in cells {
        let needed = columns_of_cell(sharing, varying, cell)?;
        columns = columns.max(needed);
    }
    Ok(columns)
}

fn add_home(homes: &mut Homes, home: Home) -> Result<(), Memory>
    ensures { OnOk result (placed_of homes.new ≡ record {
      list = homes.old.list.items ++ home ∷ [];
      columns = homes.old.columns;
      slots = homes.old.slots;
    }) }
{
    push(&mut homes.list, home)
}

/// A slot of its own.
fn add_slot(homes: &mut Homes) -> Result<(), Memory>
    ensures { OnOk result (placed_of homes.new ≡ made.with_kept kept.One (placed_of homes.old)) }
{
    let slot = homes.slots;
    homes.slots = sum_of(slot, 1)?;
    add_home(homes, Home::Once(slot))
}

/// A column of its own.
fn add_column(homes: &mut Homes) -> Result<(), Memory>
    ensures { OnOk result (placed_of homes.new ≡ made.with_made true (placed_of homes.old)) }
{
    let column = homes.columns;
    homes.columns = sum_of(column, 1)?;
    add_home(homes, Home::Column(column))
}

fn add_kept(homes: &mut Homes, kept: Kept) -> Result<(), Memory>
    ensures { OnOk result (placed_of homes.new ≡ made.with_kept kept (placed_of homes.old)) }
{
    match kept {
        Kept::Nothing => add_home(homes, Home::Register),
        Kept::One => add_slot(homes),
        Kept::Each(column) => add_home(homes, Home::Column(column)),
    }
}

/// The home of a flag or a value, which has a column where it is a keep.
fn add_made(homes: &mut Homes, keep: bool) -> Result<(), Memory>
    ensures { OnOk result (placed_of homes.new ≡ made.with_made keep (placed_of homes.old)) }
{
    if keep {
        add_column(homes)
    } else {
        add_home(homes, Home::Register)
    }
}

/// The home of one cell more.
fn add_cell(
    homes: &mut Homes,
    sharing: &Sharing,
    varying: &Varying,
    cell: &Cell,
    keep: bool,
) -> Result<(), Memory>
    ensures { OnOk result (placed_of homes.new ≡ made.with_home (shares_of sharing.now) (varying_of varying.now)
        keep (cell_of cell.now).kind (placed_of homes.old)) }
{
    match &cell.kind {
        CellKind::Variable {
            calls,
            function,
            var,
            ..
        } => {
            let kept = kept_of(sharing, varying, calls, *function, *var)?;
            add_kept(homes, kept)
        }
        CellKind::Flag | CellKind::Value => add_made(homes, keep),
    }
}

/// The home of each cell; `across` says of each whether the kernel names it on both sides of a cut.
pub(crate) fn homes_of(
    alloc: Global,
    sharing: &Sharing,
    varying: &Varying,
    cells: &[Cell],
    across: &[bool],
) -> Result<Homes, Memory>
    ensures { IfOk result (λ h. placed_of h ≡ made.homes_onto (shares_of sharing.now) (varying_of varying.now)
        across.now 0 (map cell_of cells.now)
        (record {
          list = [];
          columns = made.columns_onto (shares_of sharing.now) (varying_of varying.now) (map cell_of cells.now) 0;
          slots = 0;
        })) }
{
    let columns = shared_columns(sharing, varying, cells)?;
    let mut homes = Homes {
        list: Vec::new(alloc),
        columns,
        slots: 0,
    };
    let mut number: u32 = 0;
    for cell in cells {
        add_cell(&mut homes, sharing, varying, cell, entry_of(across, number))?;
        number = sum_of(number, 1)?;
    }
    Ok(homes)
}
