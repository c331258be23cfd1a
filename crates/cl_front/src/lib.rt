//! From the bytes of a source to its typed program.
#![tactic(auto)]

pub mod condition;
pub mod front;
pub mod laws;
pub mod typing;

pub use condition::Condition;
pub use front::{SourceError, read_tokens, read_unit};
pub use laws::{forms_law, program_law};
pub use typing::{Source, compile, compile_kernel, read_source};
