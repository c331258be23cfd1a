//! Conversions of lanes from one type to another.
ghost use Rattle.std.specs.Prelude.{◌≡◌, ◌≤◌, ◌+◌, ◌%◌, ◌^◌, map, not, nat_eq};
ghost use Rattle.std.specs.Prelude.{if◌then◌else◌};
ghost use Rattle.std.specs.Int.{from_bool};
ghost use Rattle.wg_num.specs.Wrap.{width_bits, is_bool};
ghost use Rattle.lane_values.specs.Lanes.{FitsLane, convert_lane};

use crate::lanes32::{bias, extend32};
use crate::lanes64::extend64;
use crate::plain32::kept32;
use crate::plain64::kept64;
use crate::tally::Tally;
use std::simd::prelude::*;
use wg_num::IntType;

/// Narrow lanes, read as values of `from`, as lanes of `to`.
pub fn convert32<const W: usize>(
    to: IntType,
    a: Simd<u32, W>,
    from: IntType,
    tally: &mut Tally,
) -> Simd<u32, W>
    requires to { FitsLane 32 to }
    requires from { FitsLane 32 from }
    requires lanes { W ≤ 64 }
    ensures lanes { result ≡ map (convert_lane 32 to from) a.entry }
    ensures counted { tally.new ≡ (tally.old + 1) % 2 ^ 64 }
{
    tally.raise();
    extend32(to, extend32(from, a))
}

/// Wide lanes, read as values of `from`, as lanes of `to`.
pub fn convert64<const W: usize>(
    to: IntType,
    a: Simd<u64, W>,
    from: IntType,
    tally: &mut Tally,
) -> Simd<u64, W>
    requires to { FitsLane 64 to }
    requires from { FitsLane 64 from }
    requires lanes { W ≤ 64 }
    ensures lanes { result ≡ map (convert_lane 64 to from) a.entry }
    ensures counted { tally.new ≡ (tally.old + 1) % 2 ^ 64 }
{
    tally.raise();
    extend64(to, extend64(from, a))
}

/// Narrow lanes, read as values of `from`, as wide lanes.
#[inline(always)]
pub fn widened<const W: usize>(to: IntType, a: Simd<u32, W>, from: IntType) -> Simd<u64, W>
    requires to { width_bits to ≡ 64 }
    requires from { FitsLane 32 from }
    ensures { result ≡ map (convert_lane 64 to from) a.entry }
{
    let held = extend32(from, a);
    let lift = bias(from);
    if lift == 0 {
        return held.cast::<u64>();
    }
    let raised = held + Simd::splat(lift);
    raised.cast::<u64>() - Simd::splat(lift as u64)
}

/// From narrow lanes to wide ones.
pub fn widen<const W: usize>(
    to: IntType,
    a: Simd<u32, W>,
    from: IntType,
    tally: &mut Tally,
) -> Simd<u64, W>
    requires to { width_bits to ≡ 64 }
    requires from { FitsLane 32 from }
    requires lanes { W ≤ 64 }
    ensures lanes { result ≡ map (convert_lane 64 to from) a.entry }
    ensures counted { tally.new ≡ (tally.old + 1) % 2 ^ 64 }
{
    tally.raise();
    widened(to, a, from)
}

/// The low 32 bits, or for `Bool` whether there is a bit.
fn low_halves<const W: usize>(to: IntType, a: Simd<u64, W>) -> Simd<u32, W>
    ensures { result ≡ map (λ x. if is_bool to then from_bool (not (nat_eq x 0)) else x % 2 ^ 32) a.entry }
{
    if let IntType::Bool = to {
        let set = a
            .simd_ne(Simd::<u64, W>::splat(0))
            .select(Simd::<u64, W>::splat(1), Simd::<u64, W>::splat(0));
        return set.cast::<u32>();
    }
    (a & Simd::splat(0xffff_ffff)).cast::<u32>()
}

/// Wide lanes, read as values of `from`, as narrow lanes.
#[inline(always)]
pub(crate) fn narrowed<const W: usize>(to: IntType, a: Simd<u64, W>, from: IntType) -> Simd<u32, W>
    requires to { FitsLane 32 to }
    requires from { width_bits from ≡ 64 }
    ensures { result ≡ map (convert_lane 32 to from) a.entry }
{
    extend32(to, low_halves(to, extend64(from, a)))
}

/// The low 32 bits.
#[inline(always)]
fn low_bits<const W: usize>(a: Simd<u64, W>) -> Simd<u32, W>
    ensures { result ≡ map (λ x. x % 2 ^ 32) a.entry }
{
    (a & Simd::splat(0xffff_ffff)).cast::<u32>()
}

/// Wide lanes, read as values of `from`, as lanes of a type of 32 bits.
#[inline(always)]
pub fn low_words<const W: usize>(to: IntType, a: Simd<u64, W>, from: IntType) -> Simd<u32, W>
    requires to { width_bits to ≡ 32 }
    requires from { width_bits from ≡ 64 }
    ensures { result ≡ map (convert_lane 32 to from) a.entry }
{
    kept32(to, low_bits(kept64(from, a)))
}

/// From wide lanes to narrow ones.
pub fn narrow<const W: usize>(
    to: IntType,
    a: Simd<u64, W>,
    from: IntType,
    tally: &mut Tally,
) -> Simd<u32, W>
    requires to { FitsLane 32 to }
    requires from { width_bits from ≡ 64 }
    requires lanes { W ≤ 64 }
    ensures lanes { result ≡ map (convert_lane 32 to from) a.entry }
    ensures counted { tally.new ≡ (tally.old + 1) % 2 ^ 64 }
{
    tally.raise();
    narrowed(to, a, from)
}
