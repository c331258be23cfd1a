//! Pieces of a typed program.

use cl_meaning::Kind;
use cl_model::{Expr, Function, Stmt, Target};

/// What a node of the syntax tree stands for in the typed program.
#[derive(Drop)]
pub enum What {
    /// Nothing by itself.
    Nothing,
    Value(Box<Expr>),
    /// A variable or an element, which can be read or assigned to.
    Target(Target),
    /// A pointer into an array: its offset in elements, where it does not lead to the first one.
    Offset(Option<Box<Expr>>),
    /// The values of a list.
    Values(Vec<Expr>),
    Barrier {
        site: u32,
    },
    Fence,
    /// What a declaration does.
    Lines(Vec<Stmt>),
    Statement(Box<Stmt>),
    /// A statement behind labels; `other` is whether `default` is among them.
    Labelled {
        labels: Vec<i128>,
        other: bool,
        behind: Box<Stmt>,
    },
    Function(Function),
    Functions(Vec<Function>),
}

/// What a node stands for, with its kind where it is an expression.
#[derive(Drop)]
pub struct Piece {
    pub kind: Option<Kind>,
    pub what: What,
}
