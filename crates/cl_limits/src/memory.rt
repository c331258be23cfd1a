//! The memory of functions without those that they call.

ghost use Rattle.std.specs.Prelude.{◌≡◌, min, map};
ghost use Rattle.cl_model.specs.Sizes.{product};
ghost use Rattle.cl_meaning.specs.View.{array_of, function_of};
ghost use Rattle.cl_limits.specs.Limits as spec;

use cl_model::{Array, Function, Space};
use wg_num::size_of;

fn product_of(lengths: &[u64]) -> u64
    ensures { result ≡ min (product lengths.now) 18446744073709551615 }
{
    let mut count = 1u64;
    for length in lengths {
        count = count.saturating_mul(*length);
    }
    count
}

/// The bytes of an array, as far as 64 bits count them.
#[tactic(auto, using(crate::proofs::Caps::capped_factors))]
fn array_bytes(array: &Array) -> u64
    ensures { result ≡ min (spec.array_bytes (array_of array.now)) 18446744073709551615 }
{
    u64::from(size_of(array.element)).saturating_mul(product_of(&array.dims))
}

fn private_arrays(arrays: &[Array]) -> u64
    ensures { result ≡ min (spec.private_arrays (map array_of arrays.now)) 18446744073709551615 }
{
    let mut bytes = 0u64;
    for array in arrays {
        if array.space == Space::Private {
            bytes = bytes.saturating_add(array_bytes(array));
        }
    }
    bytes
}

fn local_arrays(arrays: &[Array]) -> u64
    ensures { result ≡ min (spec.local_arrays (map array_of arrays.now)) 18446744073709551615 }
{
    let mut bytes = 0u64;
    for array in arrays {
        if array.space == Space::Local {
            bytes = bytes.saturating_add(array_bytes(array));
        }
    }
    bytes
}

/// The private bytes of a function without those that it calls, as far as 64 bits count them: 8 for each variable
/// and parameter, and its private arrays (OpenCL 1.2, section 6.5.4).
pub fn private_bytes(function: &Function) -> u64
    ensures { result ≡ min (spec.private_bytes (function_of function.now)) 18446744073709551615 }
{
    (function.vars.len() as u64)
        .saturating_mul(8)
        .saturating_add(private_arrays(&function.arrays))
}

/// The bytes of a function's local arrays and scalars, as far as 64 bits count them (OpenCL 1.2, section 6.5.2).
pub fn local_bytes(function: &Function) -> u64
    ensures { result ≡ min (spec.local_bytes (function_of function.now)) 18446744073709551615 }
{
    local_arrays(&function.arrays)
}
