//! The whole kernel.

ghost use Rattle.std.specs.Prelude.{◌≡◌, IfOk, map};
ghost use Rattle.cl_model.specs.Calls as called;
ghost use Rattle.cl_model.specs.Valid as valid;
ghost use Rattle.cl_model.specs.View.{function_of, program_of};
ghost use Rattle.kir.specs.Listed.{lines_of};
ghost use Rattle.kir.specs.Lowering.{names_of};
ghost use Rattle.kir.specs.View.{kernel_of};
ghost use Rattle.kir_lower.specs.Whole as whole;
ghost use Rattle.kir_lower.specs.View.{made_of};

use crate::entering::{Way, placed, put_bound};
use crate::places::{Made, behind, constant, function_at};
use crate::statements::put_body;
use cl_model::{Function, Program, Root, VarKind, copy_tables};
use kir::{Kernel, KernelParts, Line};
use std::alloc::Global;
use wg_num::{IntType, Memory, Place, push};

/// The kinds of a function's parameters.
fn kinds_of(alloc: Global, function: &Function) -> Result<Vec<VarKind>, Memory>
    ensures { IfOk result (λ v. v.items ≡ valid.parameter_kinds (function_of function.now)) }
{
    let mut kinds = Vec::new(alloc);
    let params = (function.params as usize).min(function.vars.len());
    for var in &function.vars[..params] {
        push(&mut kinds, var.kind)?;
    }
    Ok(kinds)
}

/// The kernel's own roots.
fn own_roots(alloc: Global, kinds: &[VarKind]) -> Result<Vec<Root>, Memory>
    ensures { IfOk result (λ v. v.items ≡ whole.own_roots 0 kinds.now) }
{
    let mut roots = Vec::new(alloc);
    let mut rest = kinds;
    let mut n = 0u32;
    while let Some((_, others)) = rest.split_first() {
        push(&mut roots, Root::Param(n))?;
        n = behind(n, 1)?;
        rest = others;
    }
    Ok(roots)
}

fn copy_places(alloc: Global, places: &[Place]) -> Result<Vec<Place>, Memory>
    ensures { IfOk result (λ v. v.items ≡ places.now) }
{
    match places.to_vec(alloc) {
        Ok(places) => Ok(places),
        Err(_) => Err(Memory),
    }
}

/// The cells, arrays and lines of the kernel, and the kinds of its parameters.
#[derive(Drop)]
struct Lowered {
    kinds: Vec<VarKind>,
    made: Made,
    body: Vec<Line>,
}

/// The lines of the kernel.
fn lower_parts(alloc: Global, program: &Program) -> Result<Lowered, Memory>
    ensures kinds { IfOk result (λ r. r.kinds.items ≡
        valid.parameter_kinds (called.kernel_of (program_of program.now))) }
    ensures body { IfOk result (λ r. lines_of r.body.items ≡
        (whole.kernel_code (program_of program.now) (names_of program.now)).lines) }
    ensures made { IfOk result (λ r. made_of r.made ≡
        (whole.kernel_code (program_of program.now) (names_of program.now)).made) }
{
    let function = function_at(program, program.kernel)?;
    let kinds = kinds_of(alloc, function)?;
    let roots = own_roots(alloc, &kinds)?;
    let way = Way {
        depth: program.functions.len(),
        calls: Vec::new(alloc),
        places: Vec::new(alloc),
        roots,
        function: program.kernel,
    };
    let mut made = Made {
        cells: Vec::new(alloc),
        arrays: Vec::new(alloc),
    };
    let here = placed(alloc, program, &mut made, way, function)?;
    let mut body = Vec::new(alloc);
    put_bound(&mut body, here.base, &kinds)?;
    let mut value = constant(0, IntType::Int);
    put_body(alloc, &here, &mut made, &mut body, function, &mut value)?;
    Ok(Lowered { kinds, made, body })
}

/// The kernel without calls that a program comes to. `Memory` where an allocation is refused; besides where a number of
/// the kernel passes 32 bits, where a function is called that is not there or leads back to itself, and where the kernel
/// would not be valid.
pub fn lower(alloc: Global, program: &Program) -> Result<Kernel, Memory>
    ensures { IfOk result (λ k. kernel_of k ≡ whole.lowered_of (program_of program.now) (names_of program.now)) }
{
    let tables = copy_tables(alloc, &program.tables)?;
    let sites = copy_places(alloc, &program.sites)?;
    let parts = lower_parts(alloc, program)?;
    let Lowered { kinds, made, body } = parts;
    let Made { cells, arrays } = made;
    let parts = KernelParts {
        params: kinds,
        cells,
        arrays,
        tables,
        body,
        sites,
    };
    match parts.checked() {
        Some(kernel) => Ok(kernel),
        None => Err(Memory),
    }
}
