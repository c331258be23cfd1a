//! What a node is judged by.

use crate::spread::Rows;
use cl_meaning::{Call, Kind, Role};
use cl_scope::Environment;
use cl_tree::Tree;
use wg_num::Word;

/// The name of the kernel that is asked for, the calls of functions that the unit defines, and the names that are
/// called of functions that it does not define.
#[derive(Drop)]
pub struct Asked {
    pub kernel: Word,
    pub calls: Vec<Call>,
    pub missing: Vec<Word>,
    /// The rows of the calls.
    pub rows: Rows,
}

/// A node with what is visible behind its parts, its place in its parent, and the kinds of its parts.
#[derive(Clone, Copy)]
pub struct Looked<'a> {
    pub environment: &'a Environment,
    pub role: Role,
    pub tree: &'a Tree,
    pub kinds: &'a [Option<Kind>],
}
