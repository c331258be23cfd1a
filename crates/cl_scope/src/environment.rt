//! What is visible, and what is around.

use cl_meaning::types::Declared;
use cl_meaning::{Entry, Parameter, Yield};
use cl_model::{Array, Table, Var};
use indexmap::IndexMap;
use wg_num::{IntType, Word};

/// What a function or prototype says of itself in front of its block: its name, whether it is a kernel, its result,
/// and its parameters in order (C99, section 6.7.5.3; OpenCL 1.2, section 6.7.1).
#[derive(Drop)]
pub struct Signature {
    pub name: Word,
    pub kernel: bool,
    pub result: Yield,
    pub parameters: Vec<Parameter>,
}

/// The function or prototype around a node: the number of its definition (that of none for a prototype),
/// whether it is one, and the work-group size that its heads require (OpenCL 1.2, section 6.7.2).
#[derive(Clone, Copy)]
pub struct Owner {
    pub number: u32,
    pub kernel: bool,
    pub defining: bool,
    pub result: Yield,
    pub sizes: Option<[u64; 3]>,
}

/// The labels in front of a statement at the outer level of a switch body: the type to which they are converted,
/// their values, and whether `default` is one of them (C99, section 6.8.4.2).
#[derive(Drop)]
pub struct Labels {
    pub of: IntType,
    pub values: Vec<i128>,
    pub other: bool,
}

/// The names that a scope declares, by their bytes, and what each stands for (C99, section 6.2.1).
pub type Names = IndexMap<Vec<u8>, Entry>;

/// What is visible at a node, and what is around it (C99, section 6.2.1).
#[derive(Drop)]
pub struct Environment {
    /// The functions that the unit defines, in order.
    pub functions: Vec<Signature>,
    /// The scopes around the node, innermost last.
    pub scopes: Vec<Names>,
    /// The constant tables of the unit so far.
    pub tables: Vec<Table>,
    /// The variables of the function so far.
    pub variables: Vec<Var>,
    /// The arrays of the function so far.
    pub arrays: Vec<Array>,
    pub owner: Owner,
    /// The type in front of declarators; none where it is outside the profile.
    pub declared: Option<Declared>,
    /// Whether the two names of memory fences are known.
    pub flags: bool,
    /// Whether the next block is that of a function, which shares the scope of its parameters.
    pub in_body: bool,
    pub in_loop: bool,
    pub in_switch: bool,
    pub labels: Option<Labels>,
}
