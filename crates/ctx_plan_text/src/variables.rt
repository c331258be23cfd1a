//! The variables of the inlined kernel, in the order in which their declarations stand in its text.

ghost use Rattle.std.specs.Prelude.{◌≡◌, ◌∷◌, [], ◌++◌, map, IfOk, OnOk};
ghost use Rattle.cl_model.specs.Calls.{function_at};
ghost use Rattle.cl_model.specs.View.{program_of};
ghost use Rattle.kir.specs.Inlined.{function_text, variables_in};
ghost use Rattle.kir.specs.Inlined as inlined;
ghost use Rattle.ctx_plan_text.specs.Entries.{variable_of, function_entries};

use crate::outline::{Entry, outline_of};
use cl_model::Program;
use std::alloc::Global;
use wg_num::{Memory, push};

/// A variable of the inlined kernel: the sites of the calls that lead to its function, that
/// function, and its number there.
#[derive(Drop)]
pub(crate) struct Variable {
    pub(crate) calls: Vec<u32>,
    pub(crate) function: u32,
    pub(crate) number: u32,
}

// The sites of some calls and one more behind them.
fn one_more(alloc: Global, calls: &[u32], site: u32) -> Result<Vec<u32>, Memory>
    ensures { IfOk result (λ v. v.items ≡ calls.now ++ site ∷ []) }
{
    let mut list = copy(alloc, calls)?;
    match list.push(site) {
        Ok(()) => Ok(list),
        Err(_) => Err(Memory),
    }
}

fn copy(alloc: Global, calls: &[u32]) -> Result<Vec<u32>, Memory>
    ensures { IfOk result (λ v. v.items ≡ calls.now) }
{
    match calls.to_vec(alloc) {
        Ok(list) => Ok(list),
        Err(_) => Err(Memory),
    }
}

fn put(list: &mut Vec<Variable>, variable: Variable) -> Result<(), Memory>
    ensures { OnOk result (map variable_of list.new.items ≡ map variable_of list.old.items ++
        variable_of variable ∷ []) }
{
    push(list, variable)
}

// The outline of the function with this number.
fn entries_at(alloc: Global, program: &Program, function: u32) -> Result<Vec<Entry>, Memory>
    ensures { IfOk result (λ v. v.items ≡ function_entries (function_at (program_of program.now) function)) }
{
    match program.functions.get(function as usize) {
        Some(body) => outline_of(alloc, body),
        None => Ok(Vec::new(alloc)),
    }
}

// A function behind these calls, in which calls nest less deep than the depth.
fn put_function(
    alloc: Global,
    program: &Program,
    depth: usize,
    calls: &[u32],
    function: u32,
    list: &mut Vec<Variable>,
) -> Result<(), Memory>
    ensures { OnOk result (map variable_of list.new.items ≡ map variable_of list.old.items ++
        variables_in (function_text (program_of program.now) depth calls.now function)) }
{
    if depth == 0 {
        return Ok(());
    }
    let entries = entries_at(alloc, program, function)?;
    for entry in entries.iter() {
        match entry {
            Entry::Declares(number) => {
                let variable = Variable {
                    calls: copy(alloc, calls)?,
                    function,
                    number: *number,
                };
                put(list, variable)?;
            }
            Entry::Calls { site, function } => {
                let further = one_more(alloc, calls, *site)?;
                put_function(alloc, program, depth - 1, &further, *function, list)?;
            }
        }
    }
    Ok(())
}

/// The variables of the inlined kernel, in the order in which their declarations stand in its text;
/// a called function stands in place of the call.
pub(crate) fn variables_of(alloc: Global, program: &Program) -> Result<Vec<Variable>, Memory>
    ensures { IfOk result (λ v. map variable_of v.items ≡ inlined.variables_of (program_of program.now)) }
{
    let mut list = Vec::new(alloc);
    let depth = program.functions.len();
    put_function(alloc, program, depth, &[], program.kernel, &mut list)?;
    Ok(list)
}
