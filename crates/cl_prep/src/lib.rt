//! Directives, conditionals and the replacement of names in the tokens of a source.
#![tactic(auto)]

pub mod directive;
pub mod expansion;
mod names;
pub mod prep;
mod replace;
mod scope;
mod start;

pub use expansion::expand;
pub use prep::{Define, Defines, PrepError};
