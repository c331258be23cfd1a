//! From a typed program to the kernel without calls: each call in place, expressions in steps, ways
//! out as guards.
#![tactic(auto)]

mod actions;
mod arms;
mod emit;
mod entering;
mod exits;
mod expressions;
mod places;
mod statements;
mod steps;
mod ways;
mod whole;

pub use whole::lower;
