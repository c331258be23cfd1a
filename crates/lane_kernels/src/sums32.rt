//! Built-in functions on the numbers of narrow lanes, each raised so that it is not negative.
ghost use Rattle.std.specs.Prelude.{◌≡◌, ◌≤◌, ◌-◌, ◌/◌, ◌+◌, ◌%◌, ◌^◌, map, min, max, pos};
ghost use Rattle.std.specs.Simd.Lanes.{zip2};
ghost use Rattle.wg_num.specs.declared.types.Fun.TheVariants.{Abs, AbsDiff, AddSat, SubSat, Hadd, Rhadd};
ghost use Rattle.wg_num.specs.Wrap.{highest};
ghost use Rattle.lane_values.specs.Lanes.{FitsLane};
ghost use Rattle.lane_kernels.specs.Vectors.{apart as apart_lane, held_raised, lowered_lane, one_lane, pair_lane};
ghost use Rattle.lane_kernels.specs.Vectors.{bias_of, raised_rest, raised_sum, raised_value, sum_below};

use crate::lanes32::{bias, extend32, half_of, low_bits};
use std::simd::prelude::*;
use wg_num::IntType;

#[inline(always)]
fn least<const W: usize>(a: Simd<u32, W>, b: Simd<u32, W>) -> Simd<u32, W>
    ensures { result ≡ zip2 min a.entry b.entry }
{
    a.simd_min(b)
}

#[inline(always)]
fn most<const W: usize>(a: Simd<u32, W>, b: Simd<u32, W>) -> Simd<u32, W>
    ensures { result ≡ zip2 max a.entry b.entry }
{
    a.simd_max(b)
}

/// How far apart two numbers are.
#[inline(always)]
fn apart<const W: usize>(a: Simd<u32, W>, b: Simd<u32, W>) -> Simd<u32, W>
    ensures { result ≡ zip2 apart_lane a.entry b.entry }
{
    a.abs_diff(b)
}

/// A sum that stops at the greatest number.
#[inline(always)]
fn more<const W: usize>(a: Simd<u32, W>, b: Simd<u32, W>) -> Simd<u32, W>
    ensures { result ≡ zip2 (sum_below 32) a.entry b.entry }
{
    a.saturating_add(b)
}

/// A difference that stops at 0.
#[inline(always)]
fn less<const W: usize>(a: Simd<u32, W>, b: Simd<u32, W>) -> Simd<u32, W>
    ensures { result ≡ zip2 (λ p q. p - q) a.entry b.entry }
{
    a.saturating_sub(b)
}

/// The numbers of lanes that are read as values of the type, raised.
#[inline(always)]
fn raised<const W: usize>(t: IntType, a: Simd<u32, W>) -> Simd<u32, W>
    requires { FitsLane 32 t }
    ensures { result ≡ map (raised_value 32 t) a.entry }
{
    extend32(t, a) + Simd::splat(bias(t))
}

/// The lanes of raised numbers.
#[inline(always)]
fn lowered<const W: usize>(t: IntType, a: Simd<u32, W>) -> Simd<u32, W>
    ensures { result ≡ map (lowered_lane 32 t) a.entry }
{
    a - Simd::splat(bias(t))
}

/// `abs`.
#[inline(never)]
pub(crate) fn sizes32<const W: usize>(t: IntType, a: Simd<u32, W>) -> [u32; W]
    requires { FitsLane 32 t }
    ensures { result ≡ map (one_lane 32 Abs t) a.entry }
{
    apart(raised(t, a), Simd::splat(bias(t))).to_array()
}

/// `abs_diff`.
#[inline(never)]
pub(crate) fn distances32<const W: usize>(t: IntType, a: Simd<u32, W>, b: Simd<u32, W>) -> [u32; W]
    requires { FitsLane 32 t }
    ensures { result ≡ zip2 (pair_lane 32 AbsDiff t) a.entry b.entry }
{
    apart(raised(t, a), raised(t, b)).to_array()
}

/// `hadd`.
#[inline(never)]
pub(crate) fn halves_down32<const W: usize>(
    t: IntType,
    a: Simd<u32, W>,
    b: Simd<u32, W>,
) -> [u32; W]
    requires { FitsLane 32 t }
    ensures { result ≡ zip2 (pair_lane 32 Hadd t) a.entry b.entry }
{
    let x = raised(t, a);
    let y = raised(t, b);
    lowered(t, least(x, y) + (apart(x, y) >> Simd::splat(1))).to_array()
}

/// `rhadd`.
#[inline(never)]
pub(crate) fn halves_up32<const W: usize>(t: IntType, a: Simd<u32, W>, b: Simd<u32, W>) -> [u32; W]
    requires { FitsLane 32 t }
    ensures { result ≡ zip2 (pair_lane 32 Rhadd t) a.entry b.entry }
{
    let x = raised(t, a);
    let y = raised(t, b);
    lowered(t, most(x, y) - (apart(x, y) >> Simd::splat(1))).to_array()
}

/// The greatest value of the type.
fn highest_of(t: IntType) -> u32
    requires { FitsLane 32 t }
    ensures { pos result ≡ highest t }
{
    match t {
        IntType::Bool => 1,
        _ => low_bits(t) - half_of(t),
    }
}

/// Raised numbers held between the ends of the type, and lowered.
#[inline(always)]
fn held<const W: usize>(t: IntType, a: Simd<u32, W>, top: u32) -> Simd<u32, W>
    requires fits { FitsLane 32 t }
    requires top { pos top ≡ highest t }
    ensures { result ≡ map (λ m. lowered_lane 32 t (held_raised 32 t top m)) a.entry }
{
    let raise = bias(t);
    let high = Simd::splat(raise + top);
    lowered(t, most(least(a, high), Simd::splat(raise - half_of(t))))
}

/// Sums of raised numbers: the first is raised further by what the second has above 0, and lowered by what it has
/// below.
#[inline(always)]
fn raised_sums<const W: usize>(bias: u32, a: Simd<u32, W>, b: Simd<u32, W>) -> Simd<u32, W>
    ensures { result ≡ zip2 (raised_sum 32 bias) a.entry b.entry }
{
    let raise = Simd::splat(bias);
    less(more(a, less(b, raise)), less(raise, b))
}

/// Differences of raised numbers.
#[inline(always)]
fn raised_rests<const W: usize>(bias: u32, a: Simd<u32, W>, b: Simd<u32, W>) -> Simd<u32, W>
    ensures { result ≡ zip2 (raised_rest 32 bias) a.entry b.entry }
{
    let raise = Simd::splat(bias);
    less(more(a, less(raise, b)), less(b, raise))
}

/// `add_sat`.
#[inline(never)]
pub(crate) fn held_sums32<const W: usize>(t: IntType, a: Simd<u32, W>, b: Simd<u32, W>) -> [u32; W]
    requires { FitsLane 32 t }
    ensures { result ≡ zip2 (pair_lane 32 AddSat t) a.entry b.entry }
{
    let sum = raised_sums(bias(t), raised(t, a), raised(t, b));
    held(t, sum, highest_of(t)).to_array()
}

/// `sub_sat`.
#[inline(never)]
pub(crate) fn held_rests32<const W: usize>(t: IntType, a: Simd<u32, W>, b: Simd<u32, W>) -> [u32; W]
    requires { FitsLane 32 t }
    ensures { result ≡ zip2 (pair_lane 32 SubSat t) a.entry b.entry }
{
    let rest = raised_rests(bias(t), raised(t, a), raised(t, b));
    held(t, rest, highest_of(t)).to_array()
}
