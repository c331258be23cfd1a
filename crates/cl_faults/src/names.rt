//! Names that are not visible, or declared already (C99, sections 6.2.1 and 6.7).

ghost use Rattle.std.specs.Prelude.{◌≡◌};
ghost use Rattle.cl_meaning.specs.Faults as spec;
ghost use Rattle.cl_scope.specs.View.{visible_in};
ghost use Rattle.cl_faults.specs.View.{looked_of};

use crate::looked::Looked;
use cl_meaning::{intrinsic_of, name_of};
use cl_scope::{Environment, callee_of, is_at_unit, is_declared, name_kind};
use cl_tree::Form;

/// Whether the node's name is not visible, as a variable or array or as a function.
#[tactic(auto, using(cl_meaning::proofs::Views::view_out))]
pub(crate) fn is_unknown_name(node: Looked) -> bool
    ensures { result ≡ spec.unknown_name (looked_of node.entry) (looked_of node.entry).form }
{
    let name = name_of(node.tree.word.bytes());
    match node.tree.form {
        Form::VariableNode => name_kind(node.environment, name).is_none(),
        Form::CallNode => callee_of(node.environment, name).is_none(),
        _ => false,
    }
}

fn is_known_name(environment: &Environment, name: &[u8]) -> bool
    ensures { result ≡ spec.is_known_name (visible_in environment.now) name.now }
{
    is_at_unit(environment) && intrinsic_of(name).is_some()
}

/// Whether the node declares a name that is declared already.
#[tactic(auto, using(cl_meaning::proofs::Views::view_out))]
pub(crate) fn is_declared_twice(node: Looked) -> bool
    ensures { result ≡ spec.declared_twice (looked_of node.entry) (looked_of node.entry).form }
{
    let environment = node.environment;
    let name = name_of(node.tree.word.bytes());
    match node.tree.form {
        Form::DeclaratorNode | Form::FunctionNode => {
            is_declared(environment, name) || is_known_name(environment, name)
        }
        Form::ParamNode => environment.owner.defining && is_declared(environment, name),
        _ => false,
    }
}
