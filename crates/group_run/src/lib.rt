//! Runs the program of a work-group on a launch, exactly as it means.
#![tactic(auto)]

mod launcher;
mod sizes;
mod worker;

pub use launcher::Launcher;
