//! A program that takes the launches of an object.

ghost use Rattle.std.specs.Prelude.{◌≡◌, IfOk, map};
ghost use Rattle.wg_object.specs.View.{object_of};
ghost use Rattle.wg_object.specs.Shell.{IsShell, IsShellFunction, shell_array};

use crate::object::Object;
use cl_model::{Array, Function, Program, Space, Var, VarKind};
use std::alloc::Global;
use wg_num::{IntType, Memory, Place, Word, push};

/// Where nothing of a shell stands.
const START: Place = Place { line: 1, column: 1 };

/// A variable of each kind.
fn vars_of(alloc: Global, kinds: &[VarKind]) -> Result<Vec<Var>, Memory>
    ensures { IfOk result (λ v. map (λ x. x.kind) v.items ≡ kinds.now) }
{
    let mut vars = Vec::new(alloc);
    for kind in kinds {
        let name = Word::new(alloc, b"")?;
        push(
            &mut vars,
            Var {
                name,
                kind: *kind,
                place: START,
            },
        )?;
    }
    Ok(vars)
}

/// A local array of so many bytes.
fn array_of(alloc: Global, bytes: u64) -> Result<Array, Memory>
    ensures { IfOk result (λ a. (a.space, a.element, a.dims.items) ≡ shell_array bytes) }
{
    let name = Word::new(alloc, b"")?;
    let mut dims = Vec::new(alloc);
    push(&mut dims, bytes)?;
    Ok(Array {
        name,
        space: Space::Local,
        element: IntType::Uchar,
        dims,
        place: START,
    })
}

/// A local array of each number of bytes.
fn arrays_of(alloc: Global, locals: &[u64]) -> Result<Vec<Array>, Memory>
    ensures { IfOk result (λ v. map (λ a. (a.space, a.element, a.dims.items)) v.items ≡
        map shell_array locals.now) }
{
    let mut arrays = Vec::new(alloc);
    for bytes in locals {
        let array = array_of(alloc, *bytes)?;
        push(&mut arrays, array)?;
    }
    Ok(arrays)
}

/// The kernel of an object as a function without a statement; `Memory` also where it has more than
/// 2^32 - 1 parameters.
fn function_for(alloc: Global, object: &Object) -> Result<Function, Memory>
    ensures { IfOk result (IsShellFunction (object_of object.now)) }
{
    let group = &object.group;
    let count = group.params.len();
    if count > u32::MAX as usize {
        return Err(Memory);
    }
    let name = group.kernel.copy(alloc)?;
    let vars = vars_of(alloc, &group.params)?;
    let arrays = arrays_of(alloc, &group.locals)?;
    Ok(Function {
        name,
        params: count as u32,
        result: None,
        vars,
        arrays,
        body: Vec::new(alloc),
        sizes: object.sizes,
    })
}

/// A program whose one function is the object's kernel, with its name, parameters, local arrays and
/// required sizes and no statement: launches are bound to it as to the kernel's own program.
/// `Memory` also where it has more than 2^32 - 1 parameters.
pub fn shell(alloc: Global, object: &Object) -> Result<Program, Memory>
    ensures { IfOk result (IsShell (object_of object.now)) }
{
    let function = function_for(alloc, object)?;
    let mut functions = Vec::new(alloc);
    push(&mut functions, function)?;
    Ok(Program {
        tables: Vec::new(alloc),
        functions,
        kernel: 0,
        sites: Vec::new(alloc),
    })
}
