//! What is assigned, or counted up or down (C99, sections 6.5.16, 6.5.2.4 and 6.5.3.1).

ghost use Rattle.std.specs.Prelude.{◌≡◌, ◌&&◌, Bool};
ghost use Rattle.cl_meaning.specs.Spelling.{setting_in};
ghost use Rattle.cl_meaning.specs.declared.kind.Kind as kind;
ghost use Rattle.cl_meaning.specs.Kinds as kind_spec;
ghost use Rattle.cl_meaning.specs.Faults as spec;
ghost use Rattle.cl_faults.specs.View.{looked_of};

use crate::fitting::setting_changes_root;
use crate::looked::Looked;
use crate::settings::{is_constant_memory, unassignable};
use cl_meaning::{Kind, Postfix, Prefix, postfix_of, prefix_of, setting_of};
use cl_tree::Form;

/// The kind of what the node assigns, counts up or counts down; `None` where it does nothing of that, or its
/// operands are not known.
#[tactic(auto, using(cl_meaning::proofs::Views::view_out))]
fn target_of(node: Looked) -> Option<Kind>
    ensures { (test : kind.Kind → Bool) →
        spec.given result test ≡ spec.of_target (looked_of node.entry) test (looked_of node.entry).form }
{
    let word = node.tree.word.bytes();
    match (node.tree.form, node.kinds) {
        (Form::AssignNode, [Some(target), Some(_)]) => Some(*target),
        (Form::UnaryNode, [Some(target), ..]) => match prefix_of(word) {
            Some(Prefix::Step(_)) => Some(*target),
            _ => None,
        },
        (Form::PostfixNode, [Some(target), ..]) => match postfix_of(word) {
            Some(Postfix::Step(_)) => Some(*target),
            _ => None,
        },
        _ => None,
    }
}

/// Whether the node assigns what may not be assigned.
pub(crate) fn is_not_assignable(node: Looked) -> bool
    ensures { result ≡ spec.of_target (looked_of node.entry) spec.unassignable (looked_of node.entry).form }
{
    match target_of(node) {
        Some(kind) => unassignable(kind),
        None => false,
    }
}

/// Whether the node writes constant memory (OpenCL 1.2, section 6.5.3).
pub(crate) fn writes_constant_memory(node: Looked) -> bool
    ensures { result ≡ spec.of_target (looked_of node.entry) kind_spec.is_constant_memory
        (looked_of node.entry).form }
{
    match target_of(node) {
        Some(kind) => is_constant_memory(kind),
        None => false,
    }
}

/// Whether the node assigns a pointer of another root to a pointer variable.
pub(crate) fn changes_root(word: &[u8], kinds: &[Option<Kind>]) -> bool
    ensures { result ≡ spec.given (setting_in word.now)
        (λ s. spec.given_pair kinds.now (λ a b. kind_spec.is_target a && kind_spec.root_changes s a b)) }
{
    match setting_of(word) {
        Some(setting) => setting_changes_root(setting, kinds),
        None => false,
    }
}
