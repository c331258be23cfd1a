//! The limits of a kernel.

ghost use Rattle.std.specs.Prelude.{◌≡◌, IfOk, map, min, nat_lt, slice_get};
ghost use Rattle.cl_tree.specs.Syntax.{view, views};
ghost use Rattle.cl_limits.specs.Limits.{whole, private_bytes as private_bytes_of};
ghost use Rattle.cl_limits.specs.Heights.{functions_in, full_height};
ghost use Rattle.cl_limits.specs.Kernel as spec;
ghost use Rattle.cl_meaning.specs.Calls.{call_of};
ghost use Rattle.cl_meaning.specs.View.{function_of};

use crate::barriers::heights;
use crate::memory::{local_bytes, private_bytes};
use crate::nodes::count_nodes;
use crate::points::is_function;
use crate::sums::{totals, value_at};
use cl_meaning::{Call, Fault};
use cl_model::{Function, Program};
use cl_tree::Tree;
use std::alloc::Global;
use wg_num::Memory;

/// How many nodes the last of some trees has, as far as 64 bits count them.
fn block_nodes(parts: &[Tree]) -> u64
    ensures { result ≡ min (spec.block_nodes (views parts.now)) 18446744073709551615 }
{
    match parts {
        [] => 0,
        [.., last] => count_nodes(last),
    }
}

/// How many nodes the block of each function of a unit has, as far as 64 bits count them.
fn weights_of(alloc: Global, unit: &Tree) -> Result<Vec<u64>, Memory>
    ensures { IfOk result (λ v. v.items ≡ map (λ n. min n 18446744073709551615) (spec.weights_of (view unit.now))) }
{
    let mut weights = Vec::new(alloc);
    for part in &unit.parts {
        if is_function(part.form) {
            match weights.push(block_nodes(&part.parts)) {
                Ok(()) => {}
                Err(_) => return Err(Memory),
            }
        }
    }
    Ok(weights)
}

/// The private bytes of each function, as far as 64 bits count them.
fn all_private_bytes(alloc: Global, functions: &[Function]) -> Result<Vec<u64>, Memory>
    ensures { IfOk result (λ v. v.items ≡ map (λ n. min n 18446744073709551615)
        (map private_bytes_of (map function_of functions.now))) }
{
    let mut bytes = Vec::new(alloc);
    for function in functions {
        match bytes.push(private_bytes(function)) {
            Ok(()) => {}
            Err(_) => return Err(Memory),
        }
    }
    Ok(bytes)
}

/// Whether the weight of the kernel is above 16,384: the nodes of its block, with those of all that it calls.
fn is_too_large(alloc: Global, unit: &Tree, calls: &[Call], kernel: u32) -> Result<bool, Memory>
    ensures { IfOk result (λ b. b ≡
        nat_lt 16384 (whole (spec.weights_of (view unit.now)) (map call_of calls.now) kernel)) }
{
    let own = weights_of(alloc, unit)?;
    let weights = totals(alloc, 16385, &own, calls)?;
    Ok(16384 < value_at(&weights, kernel as usize))
}

/// Whether the private memory of a work-item, with that of all that the kernel calls, is above 16,384 bytes.
fn is_private_over(
    alloc: Global,
    functions: &[Function],
    calls: &[Call],
    kernel: u32,
) -> Result<bool, Memory>
    ensures { IfOk result (λ b. b ≡
        nat_lt 16384 (whole (map private_bytes_of (map function_of functions.now)) (map call_of calls.now) kernel)) }
{
    let own = all_private_bytes(alloc, functions)?;
    let bytes = totals(alloc, 16385, &own, calls)?;
    Ok(16384 < value_at(&bytes, kernel as usize))
}

/// Whether more than 16 `if`, loop and `switch` statements are around a barrier of the kernel.
fn is_too_deep(alloc: Global, unit: &Tree, kernel: u32) -> Result<bool, Memory>
    ensures { IfOk result (λ b. b ≡ nat_lt 17 (full_height (functions_in (view unit.now)) kernel)) }
{
    let heights = heights(alloc, 18, &unit.parts)?;
    Ok(17 < value_at(&heights, kernel as usize))
}

/// Whether the kernel declares more than 65,536 bytes of local memory.
fn is_local_over(functions: &[Function], kernel: u32) -> bool
    ensures { result ≡ nat_lt 65536 (spec.local_bytes_at (slice_get (map function_of functions.now) kernel)) }
{
    match functions.get(kernel as usize) {
        Some(function) => 65536 < local_bytes(function),
        None => false,
    }
}

/// The first limit, in the order of the numbers of faults, that the kernel is above; `calls` are the calls of the
/// unit, and `program` is what it stands for.
pub fn limit_of(
    alloc: Global,
    unit: &Tree,
    calls: &[Call],
    program: &Program,
) -> Result<Option<Fault>, Memory>
    ensures { IfOk result (λ k. k ≡
        spec.limit_of (spec.sized_of (view unit.now) (map call_of calls.now) program.now)) }
{
    if is_too_large(alloc, unit, calls, program.kernel)? {
        return Ok(Some(Fault::KernelTooLarge));
    }
    if is_private_over(alloc, &program.functions, calls, program.kernel)? {
        return Ok(Some(Fault::PrivateMemory));
    }
    if is_too_deep(alloc, unit, program.kernel)? {
        return Ok(Some(Fault::BarriersTooDeep));
    }
    if is_local_over(&program.functions, program.kernel) {
        return Ok(Some(Fault::LocalMemory));
    }
    Ok(None)
}
