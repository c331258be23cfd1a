//! The registers of the cells and constants that a region names, and the numbers of its arrays.

ghost use Rattle.std.specs.Prelude.{◌≡◌, ◌++◌, ◌∷◌, List, false, length, map, replicate};
ghost use Rattle.std.specs.Prelude.{slice_index_or, IfOk, OnOk};
ghost use Rattle.kir.specs.declared.line.Atom.{Atom};
ghost use Rattle.kir.specs.Listed.{cell_of};
ghost use Rattle.kir.specs.View.{kernel_of};
ghost use Rattle.cl_model.specs.View.{array_of};
ghost use Rattle.mask_lower.specs.Registers as spec;

use crate::registers::{Free, Layout, Operand, advanced, more, register_at};
use cl_model::{Array, Root, Space};
use kir::{Atom, Cell, Kernel};
use lane_code::{Bank, Reg, Step};
use std::alloc::Global;
use wg_num::{IntType, Memory, push};

/// A table of cells, none of which is marked.
fn unmarked(alloc: Global, cells: &Vec<Cell>) -> Result<Vec<bool>, Memory>
    ensures { IfOk result (λ marks. marks.items ≡ replicate (length cells.now.items) false) }
{
    let mut marks = Vec::new(alloc);
    for _cell in cells {
        push(&mut marks, false)?;
    }
    Ok(marks)
}

/// Marks the cell that the atom names, if the table has it.
fn mark(marks: &mut Vec<bool>, atom: Atom)
    ensures { (atoms : List Atom) → spec.marked marks.old.items (atom ∷ atoms) ≡ spec.marked marks.new.items atoms }
{
    if let Atom::Cell(cell) = atom {
        let index = cell as usize;
        if index < marks.len() {
            marks[index] = true;
        }
    }
}

/// Marks the cells that the atoms name.
fn mark_all(marks: &mut Vec<bool>, atoms: &Vec<Atom>)
    ensures { marks.new.items ≡ spec.marked marks.old.items atoms.now.items }
{
    for atom in atoms {
        mark(marks, *atom);
    }
}

/// Whether the cell is marked.
pub(crate) fn is_marked(marks: &Vec<bool>, number: usize) -> bool
    ensures { result ≡ slice_index_or marks.now.items number false }
{
    marks.get(number).copied().unwrap_or(false)
}

/// The registers of the marked cells, dense in each bank, and those that are free behind them.
fn place_cells(
    alloc: Global,
    marks: &Vec<bool>,
    cells: &Vec<Cell>,
) -> Result<(Vec<Option<Operand>>, Free), Memory>
    ensures { IfOk result (λ x. (x.0.items ≡ spec.cells_from marks.now.items spec.all_free 0
        (map cell_of cells.now.items)) ×
        (x.1 ≡ spec.behind_cells marks.now.items spec.all_free 0 (map cell_of cells.now.items))) }
{
    let mut placed = Vec::new(alloc);
    let mut next = Free { narrow: 0, wide: 0 };
    let mut number: usize = 0;
    for cell in cells {
        if is_marked(marks, number) {
            let operand = Operand {
                of: cell.of,
                at: register_at(next, cell.of),
            };
            push(&mut placed, Some(operand))?;
            next = advanced(next, cell.of)?;
        } else {
            push(&mut placed, None)?;
        }
        number += 1;
    }
    Ok((placed, next))
}

/// The number of each array among those of its space.
fn place_arrays(alloc: Global, arrays: &Vec<Array>) -> Result<Vec<u32>, Memory>
    ensures { IfOk result (λ places. places.items ≡ spec.places_from 0 0 (map array_of arrays.now.items)) }
{
    let mut places = Vec::new(alloc);
    let mut locals: u32 = 0;
    let mut privates: u32 = 0;
    for array in arrays {
        match array.space {
            Space::Local => {
                push(&mut places, locals)?;
                locals = more(locals, 1)?;
            }
            Space::Private => {
                push(&mut places, privates)?;
                privates = more(privates, 1)?;
            }
            Space::Global | Space::Constant => {
                push(&mut places, privates)?;
            }
        }
    }
    Ok(places)
}

/// The layout of a region that names these atoms.
pub(crate) fn layout(alloc: Global, atoms: &Vec<Atom>, kernel: &Kernel) -> Result<Layout, Memory>
    ensures { IfOk result (λ layout. spec.frame_of layout ≡ spec.frame_for (kernel_of kernel.now) atoms.now.items) }
{
    let mut marks = unmarked(alloc, &kernel.cells)?;
    mark_all(&mut marks, atoms);
    let (cells, scratch) = place_cells(alloc, &marks, &kernel.cells)?;
    let arrays = place_arrays(alloc, &kernel.arrays)?;
    Ok(Layout {
        cells,
        arrays,
        scratch,
    })
}

/// The first registers of constants.
pub(crate) fn first_constants(layout: &Layout) -> Result<Free, Memory>
    ensures { IfOk result (λ next. next ≡ spec.first_constants (spec.frame_of layout.now)) }
{
    let narrow = more(layout.scratch.narrow, 1)?;
    let wide = more(layout.scratch.wide, 1)?;
    Ok(Free { narrow, wide })
}

/// The register and type of a cell; what stands for a cell that the region does not name is no cell's.
pub(crate) fn cell_at(cells: &Vec<Option<Operand>>, cell: u32) -> Operand
    ensures { result ≡ spec.cell_at cells.now.items cell }
{
    match cells.get(cell as usize) {
        Some(Some(x)) => *x,
        Some(None) | None => Operand {
            of: IntType::Int,
            at: Reg {
                bank: Bank::Narrow,
                number: 0,
            },
        },
    }
}

/// The register and type of an atom, and the registers that are free for constants behind it.
pub(crate) fn read(
    cells: &Vec<Option<Operand>>,
    next: Free,
    atom: Atom,
) -> Result<(Operand, Free), Memory>
    ensures { IfOk result (λ x. (x.0 ≡ spec.operand cells.now.items next atom) ×
        (x.1 ≡ spec.past_atom next atom)) }
{
    match atom {
        Atom::Const { of, .. } => {
            let after = advanced(next, of)?;
            Ok((
                Operand {
                    of,
                    at: register_at(next, of),
                },
                after,
            ))
        }
        Atom::Cell(cell) => {
            let x = cell_at(cells, cell);
            Ok((x, next))
        }
    }
}

/// The array with this number, by its number among those of its space; 0 if there is none.
pub(crate) fn array_at(arrays: &Vec<u32>, array: u32) -> u32
    ensures { result ≡ slice_index_or arrays.now.items array 0 }
{
    arrays.get(array as usize).copied().unwrap_or(0)
}

/// The root, by such a number.
pub(crate) fn root_at(arrays: &Vec<u32>, root: Root) -> Root
    ensures { result ≡ spec.root_at arrays.now.items root }
{
    match root {
        Root::Param(_) | Root::Constant(_) => root,
        Root::Local(n) => Root::Local(array_at(arrays, n)),
        Root::Private(n) => Root::Private(array_at(arrays, n)),
    }
}

/// Puts the constant that an atom is, and answers the registers that are free behind it.
fn lower_constant(code: &mut Vec<Step>, next: Free, atom: Atom) -> Result<Free, Memory>
    ensures { IfOk result (λ after. (atoms : List Atom) →
        code.old.items ++ spec.constants next (atom ∷ atoms) ≡ code.new.items ++ spec.constants after atoms) }
{
    match atom {
        Atom::Const { value, of } => {
            push(
                code,
                Step::Const {
                    to: register_at(next, of),
                    of,
                    value,
                },
            )?;
            let after = advanced(next, of)?;
            Ok(after)
        }
        Atom::Cell(_) => Ok(next),
    }
}

/// Each constant into its register.
pub(crate) fn lower_constants(
    code: &mut Vec<Step>,
    next: Free,
    atoms: &Vec<Atom>,
) -> Result<(), Memory>
    ensures { OnOk result (code.new.items ≡ code.old.items ++ spec.constants next atoms.now.items) }
{
    let mut next = next;
    for atom in atoms {
        next = lower_constant(code, next, *atom)?;
    }
    Ok(())
}
