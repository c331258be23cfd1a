//! From regions to lane code.

ghost use Rattle.std.specs.Prelude.{◌≡◌, ◌++◌, ◌&&◌, length, IfOk};
ghost use Rattle.kir.specs.Listed.{lines_of};
ghost use Rattle.kir.specs.View.{kernel_of};
ghost use Rattle.lane_code.specs.Program.{code_of};
ghost use Rattle.regions.specs.View.{region_of};
ghost use Rattle.mask_lower.specs.Atoms.{atoms_in};
ghost use Rattle.mask_lower.specs.Counts.{SameAccesses};
ghost use Rattle.mask_lower.specs.Forms.{is_one_loop};
ghost use Rattle.mask_lower.specs.Registers.{frame_of, past};
ghost use Rattle.mask_lower.specs.Lowered as spec;

use crate::atoms::region_atoms;
use crate::homes::{lower_entry, lower_exit, lower_vote};
use crate::lines::{Scope, lower_lines, lower_rest};
use crate::placing::{first_constants, layout, lower_constants};
use crate::registers::{Free, Layout};
use crate::setting::put_cells;
use ctx_plan::{Home, Plan};
use kir::{Atom, Kernel, Line};
use lane_code::{Code, Step};
use regions::Region;
use std::alloc::Global;
use wg_num::Memory;

/// The lane code of a region of a kernel whose cells are kept as the plan says. It is the same at each width.
/// `Memory` where an allocation is refused, and also where a number would pass 32 bits, and where the steps would be no
/// code, as of a region that is none of the kernel's.
pub fn lower_region(
    alloc: Global,
    region: &Region,
    plan: &Plan,
    kernel: &Kernel,
) -> Result<Code, Memory>
    ensures code { IfOk result (λ c. code_of c ≡ spec.region_code (kernel_of kernel.now) plan.now.homes.items
        (region_of region.now)) }
    ensures accesses { IfOk result (λ c. SameAccesses (lines_of region.now.lines.items) c.steps.items) }
{
    let steps = region_steps(alloc, region, &plan.homes, kernel)?;
    match Code::new(steps) {
        Some(code) => Ok(code),
        None => Err(Memory),
    }
}

/// The steps of a region.
fn region_steps(
    alloc: Global,
    region: &Region,
    homes: &Vec<Home>,
    kernel: &Kernel,
) -> Result<Vec<Step>, Memory>
    ensures { IfOk result (λ steps. steps.items ≡ spec.region_steps (kernel_of kernel.now) homes.now.items
        (region_of region.now)) }
{
    let atoms = region_atoms(alloc, region)?;
    let layout = layout(alloc, &atoms, kernel)?;
    let steps = steps_with(alloc, region, homes, &layout, &atoms)?;
    Ok(steps)
}

/// The steps of a region that names these atoms.
fn steps_with(
    alloc: Global,
    region: &Region,
    homes: &Vec<Home>,
    layout: &Layout,
    atoms: &Vec<Atom>,
) -> Result<Vec<Step>, Memory>
    ensures { IfOk result (λ steps. steps.items ≡ spec.steps_with (frame_of layout.now) atoms.now.items
        homes.now.items (region_of region.now)) }
{
    let first = first_constants(layout)?;
    let mut code = Vec::new(alloc);
    lower_constants(&mut code, first, atoms)?;
    lower_entry(alloc, &mut code, &layout.cells, homes, &region.lines)?;
    let next = lower_begun(&mut code, region, layout, first)?;
    lower_vote(&mut code, region.answer, layout, next)?;
    let put = put_cells(alloc, layout.cells.len(), &region.lines, &region.live)?;
    lower_exit(&mut code, &layout.cells, &put, homes)?;
    Ok(code)
}

/// Whether a region that begins with votes is the rest of a loop, its one line.
fn is_rest(region: &Region) -> bool
    ensures { result ≡ (region.now.from_vote && is_one_loop region.now.lines.items) }
{
    match region.lines.as_slice() {
        [Line::Loop { .. }] => region.from_vote,
        _ => false,
    }
}

/// The lines of a region under all existing lanes; one that begins with votes is the rest of its one
/// line, a loop.
fn lower_begun(
    code: &mut Vec<Step>,
    region: &Region,
    layout: &Layout,
    next: Free,
) -> Result<Free, Memory>
    ensures { IfOk result (λ after.
        (code.new.items ≡ code.old.items ++ spec.begun_code (frame_of layout.now) (length code.old.items) next
        region.now.from_vote (lines_of region.now.lines.items)) ×
        (after ≡ past next (atoms_in (lines_of region.now.lines.items)))) }
{
    if is_rest(region) {
        let [line] = region.lines.as_slice() else {
            unreachable!()
        };
        let after = lower_rest(code, line, layout, next)?;
        return Ok(after);
    }
    let all = Scope {
        mask: 0,
        free: 1,
        next,
    };
    let after = lower_lines(code, &region.lines, layout, all)?;
    Ok(after)
}
