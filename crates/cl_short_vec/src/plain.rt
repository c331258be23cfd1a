//! Whether a unit has vectors at all.

ghost use Rattle.std.specs.Prelude.{◌≡◌};
ghost use Rattle.cl_tree.specs.Syntax.{view, views};
ghost use Rattle.cl_tree.specs.Selections.{is_selection as is_selection_of};
ghost use Rattle.cl_short_vec.specs.Plain as spec;

use crate::types::vector_type;
use cl_tree::{Form, Tree};

/// Whether own words begin with a point.
pub(crate) fn is_pointed(word: &[u8]) -> bool
    ensures { result ≡ spec.is_pointed word.now }
{
    match word {
        [first, ..] => *first == b'.',
        [] => false,
    }
}

/// Whether a tree is a selection of components (OpenCL 1.2, section 6.1.7).
#[tactic(auto, using(cl_meaning::proofs::Views::view_out, crate::proofs::Plainness::selection_parts))]
fn is_selection(tree: &Tree) -> bool
    ensures { result ≡ is_selection_of (view tree.now) }
{
    match (tree.form, tree.parts.as_slice()) {
        (Form::PostfixNode, [_]) => is_pointed(tree.word.bytes()),
        _ => false,
    }
}

#[cycle(plain)]
fn have_vectors(trees: &[Tree]) -> bool
    ensures { result ≡ spec.have_vectors (views trees.now) }
{
    for tree in trees {
        if has_vectors(tree) {
            return true;
        }
    }
    false
}

/// Whether a type in a tree names a vector type, or something in it is a selection.
#[cycle(plain)]
#[tactic(auto, using(cl_meaning::proofs::Views::view_out))]
pub fn has_vectors(tree: &Tree) -> bool
    ensures { result ≡ spec.has_vectors (view tree.now) }
{
    if vector_type(tree).is_some() || is_selection(tree) {
        return true;
    }
    have_vectors(&tree.parts)
}
