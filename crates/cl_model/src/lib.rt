//! The typed program, launches and buffers: what a launch of a kernel is about.
#![tactic(auto)]

mod boxes;
mod build;
pub mod expression;
pub mod launch;
mod law_programs;
pub mod laws;
pub mod program;
pub mod statement;
pub mod tables;
pub mod types;

pub use launch::{Bound, Buffers, Launch};
pub use program::{
    Arg, Array, Expr, Function, Program, Query, Root, Space, Stmt, SwitchArm, Table, Target, Var,
    VarKind,
};
pub use tables::{bytes_of_array, copy_array, copy_table, copy_tables, product_of};
pub use types::{arity_of, is_pointer, query_type};
