//! The syntax tree of a source, and the grammar that says which tokens spell which tree.
#![tactic(auto)]

pub mod terminal;
pub mod tree;
mod words;

pub use terminal::{Leaf, Terminal, classify, leaves};
pub use tree::{Form, Tree};
