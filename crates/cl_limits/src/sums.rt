//! What functions count with all that they call.

ghost use Rattle.std.specs.Prelude.{◌≡◌, ◌+◌, ℕ, ◌↔◌, IsTrue, IfOk, min, map, length, slice_index};
ghost use Rattle.std.specs.Prelude.{replicate};
ghost use Rattle.cl_limits.specs.Limits.{whole};
ghost use Rattle.cl_limits.specs.Rounds as rounds;
ghost use Rattle.cl_meaning.specs.Calls.{call_of};

use cl_meaning::Call;
use std::alloc::Global;
use wg_num::Memory;

/// The value of a function; 0 for one that is not there.
pub(crate) fn value_at(values: &[u64], function: usize) -> u64
    ensures { result ≡ slice_index values.now function }
{
    match values.get(function) {
        Some(value) => *value,
        None => 0,
    }
}

fn capped_sum(a: u64, b: u64, cap: u64) -> u64
    ensures { result ≡ min (a + b) cap }
{
    a.saturating_add(b).min(cap)
}

/// Adds what is called to the sum of the caller.
fn add_call(cap: u64, counts: &[u64], sums: &mut [u64], call: Call)
    ensures { sums.new ≡ rounds.with_call cap counts.now sums.old (call_of call) }
{
    let caller = call.caller as usize;
    if caller < sums.len() {
        sums[caller] = capped_sum(sums[caller], value_at(counts, call.called as usize), cap);
    }
}

/// The values, each at most the cap.
fn capped(alloc: Global, cap: u64, values: &[u64]) -> Result<Vec<u64>, Memory>
    ensures { IfOk result (λ v. v.items ≡ map (λ n. min n cap) values.now) }
{
    match values.iter().map(|n| (*n).min(cap)).collect(alloc) {
        Ok(values) => Ok(values),
        Err(_) => Err(Memory),
    }
}

/// So many zeros.
pub(crate) fn zeros(alloc: Global, count: usize) -> Result<Vec<u64>, Memory>
    ensures { IfOk result (λ v. v.items ≡ replicate count 0) }
{
    match vec![in alloc; 0u64; count] {
        Ok(values) => Ok(values),
        Err(_) => Err(Memory),
    }
}

pub(crate) fn same_values(a: &[u64], b: &[u64]) -> bool
    ensures { IsTrue result ↔ a.now ≡ b.now }
{
    a == b
}

/// What functions count, where those that they call count so much.
fn next_totals(
    alloc: Global,
    cap: u64,
    own: &[u64],
    calls: &[Call],
    counts: &[u64],
) -> Result<Vec<u64>, Memory>
    ensures { IfOk result (λ v. v.items ≡ rounds.next_totals cap own.now (map call_of calls.now) counts.now) }
{
    let mut sums = capped(alloc, cap, own)?;
    for call in calls {
        add_call(cap, counts, &mut sums, *call);
    }
    Ok(sums)
}

/// What each function counts with all that it calls, once for each call, at most the cap; `own` is what each
/// function has itself.
pub fn totals(alloc: Global, cap: u64, own: &[u64], calls: &[Call]) -> Result<Vec<u64>, Memory>
    ensures size { IfOk result (λ v. length v.items ≡ length own.now) }
    ensures each { IfOk result (λ v. (f : ℕ) →
        slice_index v.items f ≡ min (whole own.now (map call_of calls.now) f) cap) }
{
    let mut counts = zeros(alloc, own.len())?;
    for _round in 0..own.len() {
        let next = next_totals(alloc, cap, own, calls, &counts)?;
        if same_values(&next, &counts) {
            return Ok(counts);
        }
        counts = next;
    }
    Ok(counts)
}
