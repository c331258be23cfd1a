//! Calls that lead back (OpenCL 1.2, section 6.9).

ghost use Rattle.std.specs.Prelude.{◌≡◌, map, IfOk};
ghost use Rattle.cl_meaning.specs.Faults as spec;
ghost use Rattle.cl_meaning.specs.Calls.{call_of};
ghost use Rattle.cl_faults.specs.Reach.{marked, open_in, most, Spreads};

use crate::spread::{Rows, Search, spread};
use cl_meaning::Call;
use std::alloc::Global;
use wg_num::Memory;

/// Whether the function of that number is marked.
pub(crate) fn is_marked(reached: &[bool], number: u32) -> bool
    ensures { result ≡ marked reached.now number }
{
    match reached.get(number as usize) {
        Some(mark) => *mark,
        None => false,
    }
}

/// The largest number of a called function, or `from` where that is larger.
fn most_number(calls: &[Call], from: u32) -> u32
    ensures { result ≡ most from (map call_of calls.now) }
{
    let mut number = from;
    for call in calls {
        if number < call.called {
            number = call.called;
        }
    }
    number
}

/// The first called function that is not reached and whose caller is.
fn open_call(reached: &[bool], calls: &[Call]) -> Option<u32>
    ensures { result ≡ open_in reached.now (map call_of calls.now) }
{
    for call in calls {
        if is_marked(reached, call.caller) && !is_marked(reached, call.called) {
            return Some(call.called);
        }
    }
    None
}

/// The marks with those that follow from the function `from`.
fn spread_from(
    alloc: Global,
    calls: &[Call],
    rows: &Rows,
    from: u32,
    marks: Vec<bool>,
) -> Result<Vec<bool>, Memory>
    ensures { IfOk result (λ v. Spreads (map call_of calls.now) marks.items v.items) }
{
    let mut found = Vec::new(alloc);
    if found.push(from).is_err() {
        return Err(Memory);
    }
    let Search {
        marks: more,
        found: _,
    } = spread(calls, rows, Search { marks, found })?;
    Ok(more)
}

/// Whether the function `from` leads to the function `to`: it is that function, or calls one that leads to it.
/// The rows are those of the calls.
pub fn leads_back(
    alloc: Global,
    calls: &[Call],
    rows: &Rows,
    from: u32,
    to: u32,
) -> Result<bool, Memory>
    ensures { IfOk result (λ b. b ≡ spec.leads_back (map call_of calls.now) from to) }
{
    let count = most_number(calls, from) as usize + 1;
    let mut reached = match vec![in alloc; false; count] {
        Ok(reached) => reached,
        Err(_) => return Err(Memory),
    };
    reached[from as usize] = true;
    let mut marks = spread_from(alloc, calls, rows, from, reached)?;
    while let Some(called) = open_call(&marks, calls) {
        marks[called as usize] = true;
    }
    Ok(is_marked(&marks, to))
}
