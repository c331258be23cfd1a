//! The sizes and offsets of a launch.
ghost use Rattle.std.specs.Prelude.{◌≡◌, ◌≤◌, ◌<◌, ◌∷◌, [], nat_lt, slice_index_or, pos};
ghost use Rattle.std.specs.List.{list_any};
ghost use Rattle.cl_model.specs.Sizes.{product};
ghost use Rattle.launch_file.specs.Binding as spec;
ghost use Rattle.launch_file.specs.Texts.{part_of};

use crate::text::LaunchPart;

/// A number of at least 0, and 0 for any other.
pub(crate) fn count_of(number: i64) -> u64
    ensures same { result ≡ spec.count_of number }
    ensures offset { spec.IsOffset result }
{
    if number < 0 { 0 } else { number as u64 }
}

// The number in a dimension, or the other where the launch does not have that dimension.
fn number_at(numbers: &[i64], dimension: usize, other: i64) -> i64
    ensures { result ≡ slice_index_or numbers.now dimension other }
{
    if dimension < numbers.len() {
        numbers[dimension]
    } else {
        other
    }
}

fn padded(numbers: &[i64], other: i64) -> [i64; 3]
    ensures { result ≡ spec.padded other numbers.now }
{
    [
        number_at(numbers, 0, other),
        number_at(numbers, 1, other),
        number_at(numbers, 2, other),
    ]
}

/// The sizes in the three dimensions.
pub(crate) fn three_sizes(sizes: &[i64]) -> [u64; 3]
    ensures { result ≡ spec.three_sizes sizes.now }
{
    let [x, y, z] = padded(sizes, 1);
    [count_of(x), count_of(y), count_of(z)]
}

/// The offsets in the three dimensions.
pub(crate) fn three_offsets(offsets: &[i64]) -> [u64; 3]
    ensures same { result ≡ spec.three_offsets offsets.now }
    ensures fit { spec.AreOffsets result }
{
    let [x, y, z] = padded(offsets, 0);
    [count_of(x), count_of(y), count_of(z)]
}

fn is_uneven(global: u64, local: u64) -> bool
    ensures { result ≡ spec.is_uneven global local }
{
    global == 0 || local == 0 || global % local != 0
}

fn are_uneven(global: [u64; 3], local: [u64; 3]) -> bool
    ensures { result ≡ spec.are_uneven global local }
{
    is_uneven(global[0], local[0])
        || is_uneven(global[1], local[1])
        || is_uneven(global[2], local[2])
}

// Whether there are more items than the limit.
fn are_above(x: u64, y: u64, z: u64, limit: u64) -> bool
    requires some { 1 ≤ z }
    requires limit { limit < 18446744073709551615 }
    ensures { result ≡ nat_lt limit (product (x ∷ y ∷ z ∷ [])) }
{
    x.saturating_mul(y).saturating_mul(z) > limit
}

fn has_negative(offsets: &[i64]) -> bool
    ensures { result ≡ list_any spec.is_below_zero (spec.padded (pos 0) offsets.now) }
{
    let [x, y, z] = padded(offsets, 0);
    x < 0 || y < 0 || z < 0
}

/// Whether the sizes or the offset of a launch are out of their limits.
pub(crate) fn sizes_wrong(part: &LaunchPart) -> bool
    ensures { result ≡ spec.sizes_wrong (part_of part.now) }
{
    let global = three_sizes(&part.global);
    let local = three_sizes(&part.local);
    if are_uneven(global, local) {
        return true;
    }
    are_above(local[0], local[1], local[2], 1024)
        || are_above(global[0], global[1], global[2], 16_777_216)
        || has_negative(&part.offset)
}

/// Whether the required work-group size, if there is one, is another (OpenCL 1.2, section 6.7.2).
pub(crate) fn is_another_size(local: [u64; 3], required: Option<[u64; 3]>) -> bool
    ensures { result ≡ spec.is_another_size local required }
{
    match required {
        Some(sizes) => !(local[0] == sizes[0] && local[1] == sizes[1] && local[2] == sizes[2]),
        None => false,
    }
}
