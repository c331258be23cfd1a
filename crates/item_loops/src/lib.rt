//! The program of a work-group.
#![tactic(auto)]

mod arrays;
mod building;

pub use building::build;
