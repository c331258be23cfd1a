//! Launch files: what one says, what it is refused for, and the launches that it gives.
#![tactic(auto)]

mod arguments;
pub mod bind;
mod document;
mod format;
mod keys;
mod lengths;
mod parts;
mod reader;
pub mod refusal;
mod settle;
mod sizes;
pub mod text;
mod values;

pub use bind::{KernelNeeds, bind_kernel};
pub use reader::read;
pub use refusal::Refusal;
pub use text::{ArgText, BufferText, LaunchError, LaunchPart, LaunchText};
