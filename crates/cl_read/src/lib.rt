//! Reading a source's tokens from left to right, one token ahead: tokens, sets of them, nodes, and lists of parts.
//! An `AllocError`, and `Fail::Memory`, mean that memory ran out, and nothing else.
#![tactic(auto)]

pub mod cursor;
pub mod members;
pub mod node;
pub mod set;
