//! The pieces of a typed program: what each node of a syntax tree stands for, made from the pieces of its parts.
#![tactic(auto)]

mod assignments;
mod beside;
mod boxes;
mod calls;
mod context;
mod declarators;
mod elements;
pub mod fragment;
mod functions;
mod growth;
mod leaves;
mod lines;
pub mod make;
mod operators;
mod parts;
mod sites;
mod statements;
mod switches;
mod types;
mod values;

pub use fragment::{Piece, What};
