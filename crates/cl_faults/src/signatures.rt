//! Kernels, prototypes and calls that lead back (OpenCL 1.2, sections 6.7.1, 6.8 and 6.9).

ghost use Rattle.std.specs.Prelude.{◌≡◌, IfOk, map, option_map};
ghost use Rattle.cl_meaning.specs.Declarations as declarations;
ghost use Rattle.cl_meaning.specs.Faults as spec;
ghost use Rattle.cl_scope.specs.Callees.{callee_view};
ghost use Rattle.cl_scope.specs.View.{signature_of};
ghost use Rattle.cl_meaning.specs.Calls.{call_of};
ghost use Rattle.cl_faults.specs.View.{asked_of, looked_of};

use crate::fitting::{same_parameters, same_yield};
use crate::looked::{Asked, Looked};
use crate::reach::leads_back;
use crate::spread::Rows;
use cl_meaning::{Call, Declared, Yield, name_of};
use cl_model::Space;
use cl_scope::{
    Callee, Signature, callee_of, first_type, pointed_space, second_star, signature_in,
};
use cl_tree::Form;
use std::alloc::Global;
use wg_num::{IntType, Memory, Word};

fn is_private(space: Space) -> bool
    ensures { result ≡ spec.is_private space }
{
    match space {
        Space::Private => true,
        _ => false,
    }
}

fn is_bool(of: IntType) -> bool
    ensures { result ≡ spec.is_bool of }
{
    match of {
        IntType::Bool => true,
        _ => false,
    }
}

/// Whether a kernel may not have a parameter of that type.
fn no_kernel_parameter(declared: Declared, star: Option<bool>) -> bool
    ensures { result ≡ spec.no_kernel_parameter declared star }
{
    is_bool(declared.of) || declared.size || (star.is_some() && is_private(pointed_space(declared)))
}

/// Whether the function that is called leads back to the one in which the call stands.
fn leads_from(
    alloc: Global,
    calls: &[Call],
    rows: &Rows,
    to: u32,
    callee: Callee,
) -> Result<bool, Memory>
    ensures { IfOk result (λ b. b ≡ spec.leads_from (map call_of calls.now) to (callee_view callee.entry)) }
{
    match callee {
        Callee::Defined { number, .. } => leads_back(alloc, calls, rows, number, to),
        Callee::Undefined | Callee::Known(_) => Ok(false),
    }
}

/// Whether a call leads back to the function in which it stands.
#[tactic(auto, using(cl_meaning::proofs::Views::view_out))]
pub(crate) fn is_recursive(alloc: Global, asked: &Asked, node: Looked) -> Result<bool, Memory>
    ensures { IfOk result (λ b. b ≡ spec.recursion (asked_of asked.now) (looked_of node.entry)
        (looked_of node.entry).form) }
{
    match node.tree.form {
        Form::CallNode => match callee_of(node.environment, name_of(node.tree.word.bytes())) {
            Some(callee) => leads_from(
                alloc,
                &asked.calls,
                &asked.rows,
                node.environment.owner.number,
                callee,
            ),
            None => Ok(false),
        },
        _ => Ok(false),
    }
}

/// The kind of result and the parameters that a function or prototype declares.
#[tactic(auto, using(cl_meaning::proofs::Views::view_out))]
fn signature_of_node(alloc: Global, node: Looked) -> Result<Signature, Memory>
    ensures { IfOk result (λ g. signature_of g ≡ declarations.signature_in (looked_of node.entry).word
        (looked_of node.entry).parts) }
{
    signature_in(alloc, node.tree.word.bytes(), &node.tree.parts)
}

fn gives_something(result_of: Yield) -> bool
    ensures { result ≡ spec.gives_something result_of }
{
    match result_of {
        Yield::Nothing => false,
        Yield::Number(_) | Yield::Outside => true,
    }
}

/// Whether a kernel has a parameter or a result that it may not have.
#[tactic(auto, using(cl_meaning::proofs::Views::view_out))]
pub(crate) fn is_wrong_kernel(alloc: Global, node: Looked) -> Result<bool, Memory>
    ensures { IfOk result (λ b. b ≡ spec.kernel_signature (looked_of node.entry) (looked_of node.entry).form) }
{
    match node.tree.form {
        Form::ParamNode => match first_type(&node.tree.parts) {
            Some(declared) => Ok(
                node.environment.owner.kernel
                    && no_kernel_parameter(declared, second_star(&node.tree.parts)),
            ),
            None => Ok(false),
        },
        Form::FunctionNode => {
            let signature = signature_of_node(alloc, node)?;
            Ok(signature.kernel && gives_something(signature.result))
        }
        _ => Ok(false),
    }
}

fn is_called(missing: &[Word], name: &[u8]) -> bool
    ensures { result ≡ spec.is_called missing.now name.now }
{
    for word in missing {
        if word.bytes() == name {
            return true;
        }
    }
    false
}

fn find_definition<'a>(name: &[u8], functions: &'a [Signature]) -> Option<&'a Signature>
    ensures { option_map (λ g. signature_of g.now) result ≡
        spec.signature_of name.now (map signature_of functions.now) }
{
    for function in functions {
        if function.name.bytes() == name {
            return Some(function);
        }
    }
    None
}

fn same_signature(left: &Signature, right: &Signature) -> bool
    ensures { result ≡ spec.same_signature (signature_of left.now) (signature_of right.now) }
{
    same_yield(left.result, right.result) && same_parameters(&left.parameters, &right.parameters)
}

/// Whether a prototype is not as its definition, or has none and is called.
fn prototype_misfits(asked: &Asked, prototype: &Signature, defined: Option<&Signature>) -> bool
    ensures { result ≡ spec.prototype_misfits (asked_of asked.now) (signature_of prototype.now)
        (option_map (λ g. signature_of g.now) defined.entry) }
{
    match defined {
        Some(function) => !same_signature(prototype, function),
        None => is_called(&asked.missing, prototype.name.bytes()),
    }
}

/// Whether the node is a prototype that is not as its definition, or has none and is called.
#[tactic(auto, using(cl_meaning::proofs::Views::view_out))]
pub(crate) fn is_no_prototype(alloc: Global, asked: &Asked, node: Looked) -> Result<bool, Memory>
    ensures { IfOk result (λ b. b ≡ spec.prototype_match (asked_of asked.now) (looked_of node.entry)
        (looked_of node.entry).form) }
{
    match node.tree.form {
        Form::PrototypeNode => {
            let name = name_of(node.tree.word.bytes());
            let prototype = signature_of_node(alloc, node)?;
            let defined = find_definition(name, &node.environment.functions);
            Ok(prototype_misfits(asked, &prototype, defined))
        }
        _ => Ok(false),
    }
}
