//! The lane machine: runs a code on one chunk of work-items, exactly as its meaning says.
#![tactic(auto)]

mod access;
mod alike;
mod asks;
mod chunks;
mod clearing;
mod dispatch;
mod ends;
mod flat;
mod flat_operators;
mod group_start;
mod group_state;
mod group_steps;
mod machine;
mod masking;
mod moves;
mod objects;
mod operands;
mod operators;
mod own;
pub mod queries;
mod region;
mod registers;
mod restart;
mod room;
mod running;
mod setting;
mod shared;
mod windows;

pub use ends::has_done;
pub use group_state::{Answers, Group};
pub use machine::Machine;
