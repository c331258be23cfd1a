//! The checker: from the syntax tree of a unit to its typed program, or to the first node at fault.
#![tactic(auto)]

mod error;
mod gather;
mod unit;
mod walk;

pub use error::CheckError;
pub use unit::check;
