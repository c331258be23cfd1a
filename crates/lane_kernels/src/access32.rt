//! Loads and stores of narrow lanes.
ghost use Rattle.std.specs.Prelude.{◌≡◌, ◌+◌, ◌%◌, ◌≤◌, ◌^◌, length};
ghost use Rattle.std.specs.Prelude.{take, true, false, MatchOption, MatchResult, IfErr, OnOk};
ghost use Rattle.wg_num.specs.Bytes.{size_of};
ghost use Rattle.lane_values.specs.Lanes.{FitsLane};
ghost use Rattle.lane_values.specs.Masks.{IsEmpty, IsLowest};
ghost use Rattle.lane_values.specs.Access.{faults, gathered, scattered};
ghost use Rattle.lane_kernels.specs.Vectors.{are_within};

use crate::access::{gather_narrow, gather_whole, put_whole, scatter_numbers};
use crate::lanes32::extend32;
use crate::tally::Tally;
use std::simd::prelude::*;
use wg_num::IntType;

/// The elements at the active lanes' places, and 0 in inactive lanes; or the lowest active lane
/// whose element is out of range. The vector is answered as an array.
pub fn gather32<const W: usize>(
    bytes: &[u8],
    t: IntType,
    index: Simd<u64, W>,
    mask: [bool; W],
    tally: &mut Tally,
) -> Result<[u32; W], u32>
    requires fits { FitsLane 32 t }
    requires lanes { W ≤ 64 }
    ensures cases { MatchResult result
        (λ v. IsEmpty (faults (size_of t) (length bytes.now) mask.entry index.entry) ×
        (v ≡ gathered 32 t bytes.now mask.entry index.entry))
        (IsLowest (faults (size_of t) (length bytes.now) mask.entry index.entry)) }
    ensures counted { tally.new ≡ (tally.old + 1) % 2 ^ 64 }
{
    let gathered = gather_narrow(bytes, t, index.to_array(), mask);
    tally.raise();
    match gathered {
        Ok(numbers) => Ok(extend32(t, Simd::from_array(numbers)).to_array()),
        Err(lane) => Err(lane),
    }
}

/// What `gather32` answers where every lane is active and in range; `None`, and no count, exactly where one is not.
#[inline(always)]
pub fn whole32<const W: usize>(
    bytes: &[u8],
    t: IntType,
    index: Simd<u64, W>,
    mask: [bool; W],
    tally: &mut Tally,
) -> Option<[u32; W]>
    requires fits { FitsLane 32 t }
    requires lanes { W ≤ 64 }
    ensures cases { MatchOption result
        (are_within (size_of t) (length bytes.now) mask.entry index.entry ≡ false)
        (λ v. (are_within (size_of t) (length bytes.now) mask.entry index.entry ≡ true) ×
        ((IsEmpty (faults (size_of t) (length bytes.now) mask.entry index.entry)) ×
        (v ≡ gathered 32 t bytes.now mask.entry index.entry))) }
    ensures counted { MatchOption result (tally.new ≡ tally.old) (λ v. tally.new ≡ (tally.old + 1) % 2 ^ 64) }
{
    match gather_whole(bytes, t, index.to_array(), mask) {
        Some(numbers) => {
            tally.raise();
            Some(extend32(t, Simd::from_array(numbers)).to_array())
        }
        None => None,
    }
}

/// Stores the active lanes, lane 0 first; or the lanes below the lowest active lane whose place is
/// out of range, which is then the error.
pub fn scatter32<const W: usize>(
    bytes: &mut [u8],
    t: IntType,
    index: Simd<u64, W>,
    from: Simd<u32, W>,
    mask: [bool; W],
    tally: &mut Tally,
) -> Result<(), u32>
    requires fits { FitsLane 32 t }
    requires lanes { W ≤ 64 }
    ensures cases { MatchResult result
        (λ _. IsEmpty (faults (size_of t) (length bytes.old) mask.entry index.entry))
        (IsLowest (faults (size_of t) (length bytes.old) mask.entry index.entry)) }
    ensures stored { OnOk result (bytes.new ≡ scattered (size_of t) bytes.old mask.entry index.entry from.entry) }
    ensures below { IfErr result (λ k. bytes.new ≡ scattered (size_of t) bytes.old (take k mask.entry)
        (take k index.entry) (take k from.entry)) }
    ensures counted { tally.new ≡ (tally.old + 1) % 2 ^ 64 }
{
    tally.raise();
    if put_whole(bytes, t, index.to_array(), from.to_array(), mask) {
        return Ok(());
    }
    let lanes = from.cast::<u64>().to_array();
    scatter_numbers(bytes, t, index.to_array(), lanes, mask)
}
