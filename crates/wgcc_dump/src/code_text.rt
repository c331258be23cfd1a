//! The program of a work-group as its listing.

use ctx_plan::Plan;
use item_loops::build;
use kir::Kernel;
use lane_code::{GroupProgram, listing};
use lane_tidy::tidied::tidy_program;
use regions::split;
use std::alloc::Global;
use wg_num::{Memory, Width, Word};

/// The program of a work-group as it is built, with this name and this width.
fn built(
    alloc: Global,
    kernel: &Kernel,
    plan: &Plan,
    name: &Word,
    width: Width,
) -> Result<GroupProgram, Memory> {
    let tree = split(alloc, kernel)?;
    let built = build(alloc, &tree, plan, kernel, name, width);
    drop(tree);
    built
}

/// Its listing.
pub(crate) fn code_text(
    alloc: Global,
    kernel: &Kernel,
    plan: &Plan,
    name: &Word,
    width: Width,
) -> Result<Vec<u8>, Memory> {
    let group = built(alloc, kernel, plan, name, width)?;
    listing(alloc, &group)
}

/// The listing of the program with its codes tidied.
pub(crate) fn tidied_text(
    alloc: Global,
    kernel: &Kernel,
    plan: &Plan,
    name: &Word,
    width: Width,
) -> Result<Vec<u8>, Memory> {
    let group = built(alloc, kernel, plan, name, width)?;
    let tidied = tidy_program(alloc, group)?;
    listing(alloc, &tidied)
}
