//! Parts behind boxes.

ghost use Rattle.std.specs.Prelude.{◌≡◌, IfOk, option_map};

use std::alloc::Global;
use wg_num::{Memory, boxed};

/// A value behind a box, with what is kept beside it; where memory runs out, both are dropped.
pub(crate) fn boxed_beside<T: Drop, K: Drop>(
    alloc: Global,
    value: T,
    kept: K,
) -> Result<(Box<T>, K), Memory>
    ensures value { IfOk result (λ r. r.0.value ≡ value) }
    ensures kept { IfOk result (λ r. r.1 ≡ kept) }
{
    let value = boxed(alloc, value)?;
    Ok((value, kept))
}

/// The same of a value that may be absent.
pub(crate) fn optional_beside<T: Drop, K: Drop>(
    alloc: Global,
    value: Option<T>,
    kept: K,
) -> Result<(Option<Box<T>>, K), Memory>
    ensures value { IfOk result (λ r. option_map (λ b. b.value) r.0 ≡ value) }
    ensures kept { IfOk result (λ r. r.1 ≡ kept) }
{
    match value {
        None => Ok((None, kept)),
        Some(value) => {
            let value = boxed(alloc, value)?;
            Ok((Some(value), kept))
        }
    }
}
