//! Marking along rows of calls. What is marked is right whatever the rows are; they are for speed.

ghost use Rattle.std.specs.Prelude.{◌≡◌, ◌&&◌, not, map, IfOk};
ghost use Rattle.cl_meaning.specs.Calls.{call_of};
ghost use Rattle.cl_faults.specs.Reach.{marked, Spreads};

use crate::reach::is_marked;
use cl_meaning::Call;
use std::alloc::Global;
use wg_num::Memory;

/// Calls in rows by their callers: for each caller the place of one of its calls, and for each call that of another
/// one of its caller. Places are counted from 1, and 0 is none.
#[derive(Drop)]
pub struct Rows {
    pub first: Vec<usize>,
    pub next: Vec<usize>,
}

/// Which functions are marked, and those of them that were found, in the order in which they were.
#[derive(Drop)]
pub(crate) struct Search {
    pub(crate) marks: Vec<bool>,
    pub(crate) found: Vec<u32>,
}

fn most_caller(calls: &[Call]) -> u32 {
    let mut number = 0;
    for call in calls {
        if number < call.caller {
            number = call.caller;
        }
    }
    number
}

/// The rows of the calls.
pub fn rows_of(alloc: Global, calls: &[Call]) -> Result<Rows, Memory> {
    let mut first = match vec![in alloc; 0; most_caller(calls) as usize + 1] {
        Ok(first) => first,
        Err(_) => return Err(Memory),
    };
    let mut next = Vec::new(alloc);
    for (place, call) in calls.iter().enumerate() {
        let caller = call.caller as usize;
        let mut before = 0;
        if caller < first.len() {
            before = first[caller];
            first[caller] = place + 1;
        }
        if next.push(before).is_err() {
            return Err(Memory);
        }
    }
    Ok(Rows { first, next })
}

fn place_in(places: &[usize], number: usize) -> usize {
    match places.get(number) {
        Some(place) => *place,
        None => 0,
    }
}

/// Whether the call leads from a marked function to one that is not.
fn opens(marks: &[bool], call: Call) -> bool
    ensures { result ≡ (marked marks.now call.caller && not (marked marks.now call.called)) }
{
    is_marked(marks, call.caller) && !is_marked(marks, call.called)
}

#[tactic(auto, using(crate::proofs::Spreading::spreads_nothing))]
/// Marks what the call at the place calls, if its caller is marked.
fn follow(calls: &[Call], place: usize, search: Search) -> Result<Search, Memory>
    ensures { IfOk result (λ s. Spreads (map call_of calls.now) search.marks.items s.marks.items) }
{
    let call = match calls.get(place) {
        Some(call) => *call,
        None => return Ok(search),
    };
    let Search {
        mut marks,
        mut found,
    } = search;
    let called = call.called as usize;
    if called >= marks.len() {
        return Ok(Search { marks, found });
    }
    if !opens(&marks, call) {
        return Ok(Search { marks, found });
    }
    marks[called] = true;
    if found.push(call.called).is_err() {
        return Err(Memory);
    }
    Ok(Search { marks, found })
}

#[tactic(auto, using(crate::proofs::Spreading::spreads_nothing, crate::proofs::Spreading::spreads_on))]
/// Marks what the caller's row of calls calls.
fn follow_row(calls: &[Call], rows: &Rows, caller: u32, search: Search) -> Result<Search, Memory>
    ensures { IfOk result (λ s. Spreads (map call_of calls.now) search.marks.items s.marks.items) }
{
    let mut reached = search;
    let mut place = place_in(&rows.first, caller as usize);
    while place > 0 {
        reached = follow(calls, place - 1, reached)?;
        let next = place_in(&rows.next, place - 1);
        if next >= place {
            return Ok(reached);
        }
        place = next;
    }
    Ok(reached)
}

#[tactic(auto, using(crate::proofs::Spreading::spreads_nothing, crate::proofs::Spreading::spreads_on))]
/// Marks what the found functions lead to.
pub(crate) fn spread(calls: &[Call], rows: &Rows, search: Search) -> Result<Search, Memory>
    ensures { IfOk result (λ s. Spreads (map call_of calls.now) search.marks.items s.marks.items) }
{
    let mut reached = search;
    for turn in 0..reached.marks.len() {
        if turn >= reached.found.len() {
            return Ok(reached);
        }
        let caller = reached.found[turn];
        reached = follow_row(calls, rows, caller, reached)?;
    }
    Ok(reached)
}
