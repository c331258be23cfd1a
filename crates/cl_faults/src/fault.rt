//! The least fault of a node.

ghost use Rattle.std.specs.Prelude.{◌≡◌, IfOk};
ghost use Rattle.std.specs.List.{find};
ghost use Rattle.cl_meaning.specs.Faults as spec;
ghost use Rattle.cl_faults.specs.View.{asked_of, looked_of};
ghost use Rattle.cl_faults.specs.Least.{IsLeast, expression_faults, declaration_faults, statement_faults};

use crate::calls::{has_no_flags, is_miscounted, is_mispassed};
use crate::declarators::{
    has_wrong_length, has_wrong_root, is_local_misplaced, is_no_program_variable,
};
use crate::labels::{
    has_no_such_kernel, is_misplaced, is_outside_type, is_wrong_label, returns_other,
};
use crate::looked::{Asked, Looked};
use crate::misfits::has_misfit;
use crate::names::{is_declared_twice, is_unknown_name};
use crate::signatures::{is_no_prototype, is_recursive, is_wrong_kernel};
use crate::targets::{is_not_assignable, writes_constant_memory};
use cl_meaning::Fault;
use std::alloc::Global;
use wg_num::Memory;

/// The first of E401 to E407 that stands.
fn expression_fault(node: Looked) -> Result<Option<Fault>, Memory>
    ensures { (asked : spec.Asked) →
        IfOk result (λ o. o ≡ find (spec.at_fault asked (looked_of node.entry)) expression_faults) }
{
    if is_unknown_name(node) {
        return Ok(Some(Fault::UnknownName));
    }
    if is_declared_twice(node) {
        return Ok(Some(Fault::DeclaredTwice));
    }
    if has_misfit(node)? {
        return Ok(Some(Fault::OperandTypes));
    }
    if is_miscounted(node) {
        return Ok(Some(Fault::ArgumentCount));
    }
    if is_mispassed(node) {
        return Ok(Some(Fault::ArgumentType));
    }
    if is_not_assignable(node) {
        return Ok(Some(Fault::NotAssignable));
    }
    if writes_constant_memory(node) {
        return Ok(Some(Fault::ConstantWritten));
    }
    Ok(None)
}

/// The first of E408 to E414 that stands.
fn declaration_fault(alloc: Global, asked: &Asked, node: Looked) -> Result<Option<Fault>, Memory>
    ensures { IfOk result (λ o. o ≡ find (spec.at_fault (asked_of asked.now) (looked_of node.entry))
        declaration_faults) }
{
    if is_outside_type(node) {
        return Ok(Some(Fault::OutsideType));
    }
    if is_local_misplaced(node)? {
        return Ok(Some(Fault::LocalMisplaced));
    }
    if is_no_program_variable(node)? {
        return Ok(Some(Fault::ProgramVariable));
    }
    if is_wrong_kernel(alloc, node)? {
        return Ok(Some(Fault::KernelSignature));
    }
    if is_recursive(alloc, asked, node)? {
        return Ok(Some(Fault::Recursion));
    }
    if has_wrong_root(node)? {
        return Ok(Some(Fault::PointerRoot));
    }
    if has_wrong_length(alloc, node)? {
        return Ok(Some(Fault::ArrayLength));
    }
    Ok(None)
}

/// The first of E415 to E424 that stands, those of the whole kernel aside.
fn statement_fault(alloc: Global, asked: &Asked, node: Looked) -> Result<Option<Fault>, Memory>
    ensures { IfOk result (λ o. o ≡ find (spec.at_fault (asked_of asked.now) (looked_of node.entry))
        statement_faults) }
{
    if is_misplaced(node) {
        return Ok(Some(Fault::Misplaced));
    }
    if is_wrong_label(node) {
        return Ok(Some(Fault::CaseValue));
    }
    if returns_other(node) {
        return Ok(Some(Fault::ReturnFit));
    }
    if has_no_flags(node) {
        return Ok(Some(Fault::BarrierFlags));
    }
    if has_no_such_kernel(asked, node) {
        return Ok(Some(Fault::NoSuchKernel));
    }
    if is_no_prototype(alloc, asked, node)? {
        return Ok(Some(Fault::PrototypeMatch));
    }
    Ok(None)
}

/// The fault of the least number that stands at the node; `None` exactly where none does. An error is that memory
/// was refused, or a number of a token that no token has.
pub fn fault_at(alloc: Global, asked: &Asked, node: Looked) -> Result<Option<Fault>, Memory>
    ensures { IfOk result (λ o. IsLeast (asked_of asked.now) (looked_of node.entry) o) }
{
    if let Some(fault) = expression_fault(node)? {
        return Ok(Some(fault));
    }
    if let Some(fault) = declaration_fault(alloc, asked, node)? {
        return Ok(Some(fault));
    }
    statement_fault(alloc, asked, node)
}
