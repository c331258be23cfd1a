//! The check of a unit.

ghost use Rattle.std.specs.Prelude.{◌≡◌, ℕ, false, Some, IfOk, map, length, slice_index};
ghost use Rattle.cl_tree.specs.Syntax.{view, views};
ghost use Rattle.cl_tree.specs.Selections.{has_selection};
ghost use Rattle.cl_meaning.specs.declared.fault.Fault.{Fault as FaultOf};
ghost use Rattle.cl_meaning.specs.Faults as faults;
ghost use Rattle.cl_meaning.specs.Meant as meant;
ghost use Rattle.cl_meaning.specs.View.{function_of, unit_of};
ghost use Rattle.cl_scope.specs.View.{signature_of};
ghost use Rattle.cl_faults.specs.View.{asked_of};
ghost use Rattle.cl_fragment.specs.View.{what_of};
ghost use Rattle.cl_check.specs.Walk.{IfFault};
ghost use Rattle.cl_limits.specs.Judged.{nodes_of, asked_in, IsAccepted};
ghost use Rattle.cl_check.specs.Checked.{starts_in, IsRefused};

use crate::error::CheckError;
use crate::gather::{Calls, gather_tree};
use crate::walk::{Walk, check_tree};
use cl_faults::{Asked, rows_of};
use cl_fragment::What;
use cl_limits::{is_function, limit_of};
use cl_meaning::Role;
use cl_model::{Function, Program, Table};
use cl_scope::{Environment, Signature, start};
use cl_tree::Tree;
use std::alloc::Global;
use wg_num::{Memory, Place, Word};

/// The number of the kernel of that name among the functions that a unit defines; how many there are, where it is
/// none of them.
fn kernel_number(kernel: &[u8], functions: &[Signature]) -> usize
    ensures { result ≡ meant.kernel_from kernel.now 0 (map signature_of functions.now) }
{
    for (number, function) in functions.iter().enumerate() {
        if function.name.bytes() == kernel && function.kernel {
            return number;
        }
    }
    functions.len()
}

/// The first token of the function of that number among those that some trees define; 0 where there are fewer.
fn start_token(trees: &[Tree], number: u32) -> u32
    ensures { result ≡ slice_index (starts_in (views trees.now)) number }
{
    let mut before = number;
    for tree in trees {
        if is_function(tree.form) {
            if before == 0 {
                return tree.first;
            }
            before -= 1;
        }
    }
    0
}

/// What the nodes of a unit are judged by.
fn asked_for(alloc: Global, unit: &Tree, places: &[Place], kernel: &[u8]) -> Result<Asked, Memory>
    ensures { IfOk result (λ a. asked_of a ≡ asked_in places.now kernel.now (view unit.now)) }
{
    let mut environment = start(alloc, unit)?;
    let mut found = Calls {
        calls: Vec::new(alloc),
        missing: Vec::new(alloc),
    };
    gather_tree(alloc, places, &mut environment, &mut found, unit)?;
    let rows = rows_of(alloc, &found.calls)?;
    let kernel = Word::new(alloc, kernel)?;
    Ok(Asked {
        kernel,
        calls: found.calls,
        missing: found.missing,
        rows,
    })
}

/// The functions that a unit stands for.
fn functions_of(alloc: Global, what: What) -> Vec<Function>
    ensures { map function_of result.items ≡ meant.all_functions (what_of what) }
{
    match what {
        What::Functions(functions) => functions,
        other => {
            drop(other);
            Vec::new(alloc)
        }
    }
}

fn tables_of(environment: Environment) -> Vec<Table>
    ensures { result ≡ environment.tables }
{
    environment.tables
}

/// The kernel's number, and what is visible at the unit.
fn kernel_of(kernel: &[u8], environment: &Environment) -> Result<u32, Memory>
    ensures { IfOk result (λ n. n ≡
        meant.kernel_from kernel.now 0 (map signature_of environment.now.functions.items)) }
{
    match u32::try_from(kernel_number(kernel, &environment.functions)) {
        Ok(number) => Ok(number),
        Err(_) => Err(Memory),
    }
}

/// The typed program of a unit, or its first node at fault.
fn typed(alloc: Global, unit: &Tree, places: &[Place], asked: &Asked) -> Result<Program, CheckError>
    ensures sound { IfOk result (λ p. faults.AllSound (asked_of asked.now) (nodes_of places.now (view unit.now))) }
    ensures program { IfOk result (λ p. unit_of p ≡ meant.unit_meant places.now asked.now.kernel (view unit.now)) }
    ensures faulted { IfFault result (faults.FirstFault (asked_of asked.now) (length places.now)
        (nodes_of places.now (view unit.now))) }
{
    let mut environment = start(alloc, unit)?;
    let kernel = kernel_of(asked.kernel.bytes(), &environment)?;
    let mut sites = Vec::new(alloc);
    let walk = Walk {
        alloc,
        asked,
        places,
    };
    match check_tree(walk, &mut environment, &mut sites, Role::Other, unit) {
        Err(e) => Err(e),
        Ok(piece) => Ok(Program {
            tables: tables_of(environment),
            functions: functions_of(alloc, piece.what),
            kernel,
            sites,
        }),
    }
}

/// The typed program of a unit with the kernel of that name, where `places` are the places of the unit's tokens. No
/// selection of components stands in the unit.
///
/// It is answered exactly where no node of the unit is at fault (E401 to E418, E422 and E424) and the kernel is
/// above no limit (E419, E420, E421 and E423). Otherwise the first node at fault decides, in the order of the nodes'
/// last tokens, parts before the whole, and the least number at that node; the token is the node's first, and the
/// number of tokens for a kernel that is not defined. A limit is looked at where no node is at fault, and its token is
/// the first of the kernel. `Memory` is answered where memory was refused (OpenCL 1.2, chapter 6; C99, sections 6.5
/// to 6.9).
pub fn check(
    alloc: Global,
    unit: &Tree,
    places: &[Place],
    kernel: &[u8],
) -> Result<Program, CheckError>
    requires selections { has_selection (view unit.now) ≡ false }
    ensures accepted { IfOk result (λ p. IsAccepted places.now kernel.now (view unit.now)) }
    ensures program { IfOk result (λ p. unit_of p ≡ meant.unit_meant places.now kernel.now (view unit.now)) }
    ensures refused { IfFault result (IsRefused places.now kernel.now (view unit.now)) }
    ensures never_accepted { IfFault result (λ k token. ¬ IsAccepted places.now kernel.now (view unit.now)) }
    ensures only { IfFault result (λ k token. (j : FaultOf) (other : ℕ) →
        IsRefused places.now kernel.now (view unit.now) j other → (j ≡ k) × (other ≡ token)) }
{
    let asked = asked_for(alloc, unit, places, kernel)?;
    match typed(alloc, unit, places, &asked) {
        Err(e) => Err(e),
        Ok(program) => match limit_of(alloc, unit, &asked.calls, &program)? {
            None => Ok(program),
            Some(fault) => Err(CheckError::Fault {
                fault,
                token: start_token(&unit.parts, program.kernel),
            }),
        },
    }
}
