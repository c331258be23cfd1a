//! The argument of a barrier or a fence (OpenCL 1.2, sections 6.12.8 and 6.12.9).

ghost use Rattle.std.specs.Prelude.{◌≡◌};
ghost use Rattle.cl_meaning.specs.Kinds as spec;
ghost use Rattle.cl_tree.specs.Syntax.{view, views};

use cl_meaning::{Flag, flag_of, name_of};
use cl_tree::{Form, Tree};

/// The memory fence that a tree names, parentheses aside.
#[tactic(auto, using(cl_meaning::proofs::Views::view_out, crate::proofs::Counts::flag_parts))]
pub fn named_flag(tree: &Tree) -> Option<Flag>
    ensures { result ≡ spec.flag_of (view tree.now) }
{
    match (tree.form, tree.parts.as_slice()) {
        (Form::VariableNode, []) => flag_of(name_of(tree.word.bytes())),
        (Form::ParenNode, [inner]) => named_flag(inner),
        _ => None,
    }
}

fn are_both(left: Option<Flag>, right: Option<Flag>) -> bool
    ensures { result ≡ spec.are_both left right }
{
    match (left, right) {
        (Some(Flag::Local), Some(Flag::Global)) => true,
        (Some(Flag::Global), Some(Flag::Local)) => true,
        _ => false,
    }
}

/// Whether the tree names one of the two memory fences, or both joined by `|`, parentheses aside.
#[tactic(auto, using(cl_meaning::proofs::Views::view_out, crate::proofs::Counts::flag_parts))]
pub fn are_flags(tree: &Tree) -> bool
    ensures { result ≡ spec.are_flags (view tree.now) }
{
    match (tree.form, tree.parts.as_slice()) {
        (Form::VariableNode, []) => flag_of(name_of(tree.word.bytes())).is_some(),
        (Form::ParenNode, [inner]) => are_flags(inner),
        (Form::BorNode, [left, right]) => are_both(named_flag(left), named_flag(right)),
        _ => false,
    }
}

/// Whether a call has one argument, and it names memory fences.
#[tactic(auto, using(crate::proofs::Counts::two_alone))]
pub fn are_flags_alone(arguments: &[Tree]) -> bool
    ensures { result ≡ spec.are_flags_alone (views arguments.now) }
{
    match arguments {
        [only] => are_flags(only),
        _ => false,
    }
}
