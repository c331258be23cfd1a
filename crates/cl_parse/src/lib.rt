//! The parser of a source's tokens, proved against the grammar.
#![tactic(auto)]

mod declaration;
mod expression;
mod parser;
mod statement;
mod types;
mod unit;

pub use parser::{ParseError, parse};
