//! The arguments of calls (C99, section 6.5.2.2; OpenCL 1.2, sections 6.12.8 and 6.12.9).

ghost use Rattle.std.specs.Prelude.{◌≡◌, option_map};
ghost use Rattle.cl_meaning.specs.Faults as spec;
ghost use Rattle.cl_scope.specs.Callees.{callee_view};
ghost use Rattle.cl_faults.specs.Called.{called_in};
ghost use Rattle.cl_faults.specs.View.{looked_of};

use crate::arguments::are_known;
use crate::callees::{arity_fits, call_fits, is_fence_call};
use crate::flags::are_flags_alone;
use crate::looked::Looked;
use cl_meaning::name_of;
use cl_scope::{Callee, callee_of};
use cl_tree::Form;

/// What the node calls.
#[tactic(auto, using(cl_meaning::proofs::Views::view_out))]
fn called<'a>(node: Looked<'a>) -> Option<Callee<'a>>
    ensures { option_map callee_view result ≡ called_in (looked_of node.entry) (looked_of node.entry).form }
{
    match node.tree.form {
        Form::CallNode => callee_of(node.environment, name_of(node.tree.word.bytes())),
        _ => None,
    }
}

/// Whether a call has another number of arguments than is taken.
#[tactic(auto, using(cl_meaning::proofs::Views::view_out))]
pub(crate) fn is_miscounted(node: Looked) -> bool
    ensures { result ≡ spec.miscounted (looked_of node.entry) (looked_of node.entry).form }
{
    match called(node) {
        Some(callee) => !arity_fits(callee, node.kinds.len()),
        None => false,
    }
}

/// Whether a call has as many arguments as are taken, and they do not fit.
#[tactic(auto, using(cl_meaning::proofs::Views::view_out, crate::proofs::Known::all_are_known))]
pub(crate) fn is_mispassed(node: Looked) -> bool
    ensures { result ≡ spec.mispassed (looked_of node.entry) (looked_of node.entry).form }
{
    match called(node) {
        Some(callee) => {
            are_known(node.kinds)
                && arity_fits(callee, node.kinds.len())
                && !call_fits(callee, node.kinds)
        }
        None => false,
    }
}

/// Whether a call of a barrier or fence has an argument that names no memory fence.
#[tactic(auto, using(cl_meaning::proofs::Views::view_out))]
pub(crate) fn has_no_flags(node: Looked) -> bool
    ensures { result ≡ spec.barrier_flags (looked_of node.entry) (looked_of node.entry).form }
{
    match called(node) {
        Some(callee) => {
            is_fence_call(callee)
                && arity_fits(callee, node.kinds.len())
                && !are_flags_alone(&node.tree.parts)
        }
        None => false,
    }
}
