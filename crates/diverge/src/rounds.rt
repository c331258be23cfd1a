//! The analysis: rounds over the program until nothing more varies.

ghost use Rattle.std.specs.Prelude.{◌≡◌, IfOk, map};
ghost use Rattle.cl_model.specs.View.{function_of, program_of};
ghost use Rattle.diverge.specs.Known.{row_of, state_of};
ghost use Rattle.diverge.specs.Rounds as spec;
ghost use Rattle.diverge.specs.Marks.{FitsProgram, IsSettled, marks};

use crate::known::{Known, Row, Spot, fresh, leave, leave_result};
use crate::statements::statements;
use cl_model::{Function, Program};
use std::alloc::Global;
use wg_num::Memory;

/// For each function of a program a list with an entry for each of its variables: whether it varies.
/// A variable that does not vary has equal values in all items of a group at one point.
#[derive(Drop)]
pub struct Varying {
    pub list: Vec<Vec<bool>>,
}

// Notes that the scope of the parameters holds a way out under a condition that varies.
fn leave_parameters(function: usize, count: u32, known: &mut Known)
    ensures { state_of known.new ≡ spec.parameters_left function count (state_of known.old) }
{
    for x in 0..count {
        leave(known, function, x as usize);
    }
}

// One round over a function.
fn walk(own: &Function, kernel: u32, function: usize, known: &mut Known)
    ensures { state_of known.new ≡ spec.over_function kernel function (function_of own.now) (state_of known.old) }
{
    let at = Spot {
        kernel,
        function,
        guard: None,
    };
    let ways = statements(&own.body, own, at, known);
    if ways.escapes {
        leave_parameters(function, own.params, known);
        leave_result(known, function);
    }
}

// One round over the functions of a program.
fn round(program: &Program, known: &mut Known)
    ensures { state_of known.new ≡ spec.round (program_of program.now) (state_of known.old) }
{
    known.grew = false;
    for (function, own) in program.functions.iter().enumerate() {
        walk(own, program.kernel, function, known);
    }
}

// Rounds until one adds nothing. Each other leaves fewer entries that do not vary.
fn settle(program: &Program, known: &mut Known)
    ensures { state_of known.old ≡ spec.start (program_of program.now) →
        state_of known.new ≡ spec.known_of (program_of program.now) }
{
    loop {
        round(program, known);
        if !known.grew {
            return;
        }
    }
}

// What is known of a function at first.
fn start_row(alloc: Global, own: &Function) -> Result<Row, Memory>
    ensures { IfOk result (λ r. row_of r ≡ spec.start_row (function_of own.now)) }
{
    match vec![in alloc; fresh(); own.vars.len()] {
        Ok(variables) => Ok(Row {
            variables,
            result: fresh(),
        }),
        Err(_) => Err(Memory),
    }
}

// What is known of a program at first: nothing varies.
fn start(alloc: Global, program: &Program) -> Result<Known, Memory>
    ensures { IfOk result (λ k. state_of k ≡ spec.start (program_of program.now)) }
{
    let mut rows = Vec::new(alloc);
    for own in &program.functions {
        let row = start_row(alloc, own)?;
        match rows.push(row) {
            Ok(()) => {}
            Err(_) => return Err(Memory),
        }
    }
    Ok(Known { rows, grew: false })
}

// Which variables of a function vary.
fn marks_of(alloc: Global, row: &Row) -> Result<Vec<bool>, Memory>
    ensures { IfOk result (λ v. v.items ≡ spec.marks_of (row_of row.now)) }
{
    match row.variables.iter().map(|e| e.varies).collect(alloc) {
        Ok(marks) => Ok(marks),
        Err(_) => Err(Memory),
    }
}

// Which variables vary.
fn listed(alloc: Global, known: &Known) -> Result<Varying, Memory>
    ensures { IfOk result (λ v. marks v ≡ map spec.marks_of (state_of known.now).rows) }
{
    let mut list = Vec::new(alloc);
    for row in &known.rows {
        let marks = marks_of(alloc, row)?;
        match list.push(marks) {
            Ok(()) => {}
            Err(_) => return Err(Memory),
        }
    }
    Ok(Varying { list })
}

/// Which variables of which functions of a program vary: the least answer that is closed under the rules of what
/// varies. `Memory` where memory was refused.
pub fn analyse(alloc: Global, program: &Program) -> Result<Varying, Memory>
    ensures exact { IfOk result (λ v. marks v ≡ spec.varying_of (program_of program.now)) }
    ensures settled { IsSettled (program_of program.now) }
    ensures shape { IfOk result (λ v. FitsProgram (program_of program.now) (marks v)) }
{
    let mut known = start(alloc, program)?;
    settle(program, &mut known);
    listed(alloc, &known)
}
