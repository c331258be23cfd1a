//! Labels and exits (C99, sections 6.8.1, 6.8.4.2 and 6.8.6), types and the kernel.

ghost use Rattle.std.specs.Prelude.{◌≡◌, map, option_map};
ghost use Rattle.cl_tree.specs.Syntax.{views};
ghost use Rattle.cl_meaning.specs.Constants.{constant_of as constant_in};
ghost use Rattle.cl_meaning.specs.Kinds.{first_part};
ghost use Rattle.cl_scope.specs.View.{labels_of, signature_of};
ghost use Rattle.cl_meaning.specs.Faults as spec;
ghost use Rattle.cl_faults.specs.View.{asked_of, looked_of};

use crate::fitting::return_misfits;
use crate::looked::{Asked, Looked};
use cl_meaning::{Base, Constant, base_of, constant_of};
use cl_scope::{Labels, Signature};
use cl_tree::{Form, Tree};
use wg_num::wrap;

/// Whether an exit or a label stands where it means nothing.
#[tactic(auto, using(cl_meaning::proofs::Views::view_out))]
pub(crate) fn is_misplaced(node: Looked) -> bool
    ensures { result ≡ spec.misplaced (looked_of node.entry) (looked_of node.entry).form }
{
    let environment = node.environment;
    match node.tree.form {
        Form::BreakNode => !(environment.in_loop || environment.in_switch),
        Form::ContinueNode => !environment.in_loop,
        Form::CaseNode | Form::DefaultNode => environment.labels.is_none(),
        _ => false,
    }
}

/// Whether the value of a `return`, if any, is not what the function gives.
#[tactic(auto, using(cl_meaning::proofs::Views::view_out))]
pub(crate) fn returns_other(node: Looked) -> bool
    ensures { result ≡ spec.return_fit (looked_of node.entry) (looked_of node.entry).form }
{
    match node.tree.form {
        Form::ReturnNode => return_misfits(node.environment.owner.result, node.kinds),
        _ => false,
    }
}

fn is_among(value: i128, values: &[i128]) -> bool
    ensures { result ≡ spec.is_among value values.now }
{
    for other in values {
        if value == *other {
            return true;
        }
    }
    false
}

/// Whether the constant, converted to the labels' type, is one of them.
fn is_repeated(labels: &Option<Labels>, constant: Constant) -> bool
    ensures { result ≡ spec.is_repeated (option_map labels_of labels.now) constant }
{
    match labels {
        Some(labels) => is_among(wrap(labels.of, constant.value), &labels.values),
        None => false,
    }
}

fn first_constant(parts: &[Tree]) -> Option<Constant>
    ensures { result ≡ constant_in (first_part (views parts.now)) }
{
    match parts {
        [] => None,
        [part, ..] => constant_of(part),
    }
}

/// Whether a label is no constant, or stands there already.
#[tactic(auto, using(cl_meaning::proofs::Views::view_out))]
pub(crate) fn is_wrong_label(node: Looked) -> bool
    ensures { result ≡ spec.case_value (looked_of node.entry) (looked_of node.entry).form }
{
    let labels = &node.environment.labels;
    match node.tree.form {
        Form::CaseNode => match first_constant(&node.tree.parts) {
            Some(constant) => is_repeated(labels, constant),
            None => true,
        },
        Form::DefaultNode => match labels {
            Some(labels) => labels.other,
            None => false,
        },
        _ => false,
    }
}

/// Whether the node is a type outside the profile.
#[tactic(auto, using(cl_meaning::proofs::Views::view_out))]
pub(crate) fn is_outside_type(node: Looked) -> bool
    ensures { result ≡ spec.outside_type (looked_of node.entry) (looked_of node.entry).form }
{
    match node.tree.form {
        Form::TypeNode => match base_of(node.tree.word.bytes()) {
            Some(Base::Outside) => true,
            _ => false,
        },
        _ => false,
    }
}

fn defines_kernel(name: &[u8], functions: &[Signature]) -> bool
    ensures { result ≡ spec.defines_kernel name.now (map signature_of functions.now) }
{
    for function in functions {
        if function.name.bytes() == name && function.kernel {
            return true;
        }
    }
    false
}

/// Whether the unit does not define the kernel that is asked for.
#[tactic(auto, using(cl_meaning::proofs::Views::view_out))]
pub(crate) fn has_no_such_kernel(asked: &Asked, node: Looked) -> bool
    ensures { result ≡ spec.no_such_kernel (asked_of asked.now) (looked_of node.entry) (looked_of node.entry).form }
{
    match node.tree.form {
        Form::UnitNode => !defines_kernel(asked.kernel.bytes(), &node.environment.functions),
        _ => false,
    }
}
