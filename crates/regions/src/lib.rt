//! The regions of a kernel: what its work-items do between two cuts.
#![tactic(auto)]

mod copying;
mod living;
pub mod region;
mod splitting;

pub use region::{Region, RegionTree};
pub use splitting::split;
