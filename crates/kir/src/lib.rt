//! The kernel without calls: lines over cells, what they mean to one work-item, its cuts, and what
//! it is to come from a program.
#![tactic(auto)]

pub mod fitting;
pub mod holding;
pub mod kernel;
pub mod laws;
pub mod line;

pub use fitting::KernelParts;
pub use kernel::{Cell, CellKind, Kernel};
pub use line::{Atom, Line, Work};
