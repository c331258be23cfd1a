//! Values behind boxes, and steps that may fail with what is kept beside them.

ghost use Rattle.std.specs.Prelude.{◌≡◌, Ok, IfOk};

use crate::types::Memory;
use std::alloc::Global;

/// The value behind a box of its own; `Memory` where none is to be had, and then the value is dropped.
pub fn boxed<T: Drop>(alloc: Global, value: T) -> Result<Box<T>, Memory>
    ensures value { IfOk result (λ b. b.value ≡ value) }
{
    match Box::new(alloc, value) {
        Ok(kept) => Ok(kept),
        Err(_) => Err(Memory),
    }
}

/// What a step made, with what is kept beside it; where the step failed, `Memory`, and what is kept
/// is dropped. So a caller with trees alive has one exit in place of two.
pub fn beside<T: Drop, K: Drop>(made: Result<T, Memory>, kept: K) -> Result<(T, K), Memory>
    ensures made { IfOk result (λ r. made ≡ Ok r.0) }
    ensures kept { IfOk result (λ r. r.1 ≡ kept) }
{
    match made {
        Ok(value) => Ok((value, kept)),
        Err(_) => Err(Memory),
    }
}
