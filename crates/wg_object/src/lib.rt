//! Object files: a compiled kernel as bytes, and back.
#![tactic(auto)]

mod coding;
mod items;
mod laws;
mod node_parts;
mod node_puts;
mod numbers;
mod object;
mod parts;
mod puts;
mod shells;
mod step_parts;
mod step_puts;
mod tables;

pub use coding::{DecodeError, decode, encode};
pub use laws::text_law;
pub use object::Object;
pub use shells::shell;
