//! Which variables of a program may differ between the work-items of one group at one point.
#![tactic(auto)]

mod expressions;
pub mod known;
pub mod rounds;
mod statements;

pub use rounds::{Varying, analyse};
