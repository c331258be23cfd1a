//! What stays as it is while a code runs on a chunk.

use cl_model::Launch;
use lane_code::{Code, Counts, GroupProgram, Step};
use lane_flat::{FlatCode, FlatStep};

/// A region that is to be run: its code and flat code, the program and the launch that it belongs to, and the
/// number of the chunk in its group.
#[derive(Clone, Copy)]
pub(crate) struct Task<'a> {
    pub code: &'a Code,
    pub flat: &'a FlatCode,
    pub program: &'a GroupProgram,
    pub launch: &'a Launch,
    pub chunk: u32,
}

/// A code on one chunk: its steps and how many registers they have, the program and the launch, and
/// the number of the chunk's first item in its group.
#[derive(Clone, Copy)]
pub(crate) struct Setting<'a> {
    pub steps: &'a [Step],
    pub flat: &'a [FlatStep],
    pub counts: Counts,
    pub program: &'a GroupProgram,
    pub launch: &'a Launch,
    pub first: usize,
}
