//! Compiled kernels with launches that fit them, run by the machine and by a launcher; and whole runs over a store and
//! two sinks in memory, of which one call fails.
#![tactic(auto)]

pub mod buffers;
#[cfg(test)]
mod failing;
pub mod ready;
#[cfg(test)]
mod tests;

pub use buffers::buffers_for;
pub use ready::{Ready, made_ready};
