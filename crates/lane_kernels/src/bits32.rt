//! Built-in functions on the bits of narrow lanes.
ghost use Rattle.std.specs.Prelude.{◌≡◌, ◌<◌, ◌%◌, map};
ghost use Rattle.std.specs.Simd.Lanes.{zip2, Each1};
ghost use Rattle.wg_num.specs.Wrap.{width_bits};
ghost use Rattle.wg_num.specs.declared.types.Fun.TheVariants.{Rotate, Clz, Popcount};
ghost use Rattle.lane_values.specs.Lanes.{FitsLane};
ghost use Rattle.lane_kernels.specs.Vectors.{turned_lane, one_lane, pair_lane};

use crate::lanes32::{amount_bits, amounts, extend32, low_bits, shared_lane};
use std::simd::prelude::*;
use wg_num::IntType;

/// The low bits of each lane, as many as the type has, rotated left within so many; the bits above are any.
#[inline(always)]
fn turned<const W: usize>(t: IntType, a: Simd<u32, W>, amount: Simd<u32, W>) -> Simd<u32, W>
    requires fits { FitsLane 32 t }
    requires amount { Each1 (λ k. k < width_bits t) amount }
    ensures { result ≡ zip2 (turned_lane 32 t) a.entry amount.entry }
{
    let held = a & Simd::splat(low_bits(t));
    let rest = Simd::splat(amount_bits(t)) - amount;
    (held << amount) + ((held >> rest) >> Simd::splat(1))
}

/// `rotate` by the amount beside each lane; out of line, so that it is not one with a rotation of all lanes alike.
#[inline(never)]
fn turned_each<const W: usize>(t: IntType, a: Simd<u32, W>, b: Simd<u32, W>) -> [u32; W]
    requires { FitsLane 32 t }
    ensures { result ≡ zip2 (λ p q. turned_lane 32 t p (q % width_bits t)) a.entry b.entry }
{
    turned(t, a, amounts(t, b)).to_array()
}

/// `rotate`.
#[inline(never)]
pub(crate) fn rotated32<const W: usize>(t: IntType, a: Simd<u32, W>, b: Simd<u32, W>) -> [u32; W]
    requires { FitsLane 32 t }
    ensures { result ≡ zip2 (pair_lane 32 Rotate t) a.entry b.entry }
{
    let held = extend32(t, a);
    let amount = extend32(t, b);
    if let Some(k) = shared_lane(amount) {
        return extend32(t, turned(t, held, Simd::splat(k & amount_bits(t)))).to_array();
    }
    extend32(t, Simd::from_array(turned_each(t, held, amount))).to_array()
}

/// `clz`.
#[inline(never)]
pub(crate) fn zeros_above32<const W: usize>(t: IntType, a: Simd<u32, W>) -> [u32; W]
    requires { FitsLane 32 t }
    ensures { result ≡ map (one_lane 32 Clz t) a.entry }
{
    let held = extend32(t, a) & Simd::splat(low_bits(t));
    extend32(t, held.leading_zeros() - Simd::splat(31 - amount_bits(t))).to_array()
}

/// `popcount`.
#[inline(never)]
pub(crate) fn ones_in32<const W: usize>(t: IntType, a: Simd<u32, W>) -> [u32; W]
    requires { FitsLane 32 t }
    ensures { result ≡ map (one_lane 32 Popcount t) a.entry }
{
    let held = extend32(t, a) & Simd::splat(low_bits(t));
    extend32(t, held.count_ones()).to_array()
}
