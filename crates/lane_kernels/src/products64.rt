//! The high halves of products of wide lanes, from products of halves.
ghost use Rattle.std.specs.Prelude.{◌≡◌, ◌≤◌, ◌/◌, ◌%◌, ◌*◌, ◌^◌, map};
ghost use Rattle.std.specs.Simd.Lanes.{zip2};
ghost use Rattle.wg_num.specs.Wrap.{width_bits};
ghost use Rattle.wg_num.specs.declared.types.Fun.TheVariants.{MulHi};
ghost use Rattle.lane_values.specs.Lanes.{FitsLane};
ghost use Rattle.lane_kernels.specs.Vectors.{high_product_lane, middle_lane, negative_part, pair_lane};

use crate::lanes64::{amount_bits, bias, extend64, values64};
use crate::products32::wide_type;
use std::simd::prelude::*;
use wg_num::{Bin, IntType};

#[inline(always)]
fn high<const W: usize>(a: Simd<u64, W>) -> Simd<u64, W>
    ensures { result ≡ map (λ p. p / 2 ^ 32) a.entry }
{
    a >> Simd::splat(32)
}

#[inline(always)]
fn low<const W: usize>(a: Simd<u64, W>) -> Simd<u64, W>
    ensures { result ≡ map (λ p. p % 2 ^ 32) a.entry }
{
    a & Simd::splat(0xffff_ffff)
}

/// What the low halves of a product and those of the products in the middle carry, with their low halves.
#[inline(always)]
fn middle<const W: usize>(a: Simd<u64, W>, b: Simd<u64, W>) -> Simd<u64, W>
    ensures { result ≡ zip2 middle_lane a.entry b.entry }
{
    high(low(a) * low(b)) + low(high(a) * low(b)) + low(low(a) * high(b))
}

/// The high halves of products of numbers that are not negative.
#[inline(always)]
fn high_products<const W: usize>(a: Simd<u64, W>, b: Simd<u64, W>) -> Simd<u64, W>
    ensures { result ≡ zip2 high_product_lane a.entry b.entry }
{
    high(a) * high(b) + high(high(a) * low(b)) + high(low(a) * high(b)) + high(middle(a, b))
}

/// `b` where `a` stands for a negative number, and else 0.
#[inline(always)]
fn where_negative<const W: usize>(bias: u64, a: Simd<u64, W>, b: Simd<u64, W>) -> Simd<u64, W>
    ensures { result ≡ zip2 (negative_part bias) a.entry b.entry }
{
    let raise = Simd::splat(bias);
    (a + raise).simd_lt(raise).select(b, Simd::splat(0))
}

/// The high halves at a type of 64 bits: of the lanes as they are, less what the negative ones have too much.
#[inline(always)]
fn high_whole<const W: usize>(t: IntType, a: Simd<u64, W>, b: Simd<u64, W>) -> Simd<u64, W>
    requires { width_bits t ≡ 64 }
    ensures { result ≡ zip2 (pair_lane 64 MulHi t) a.entry b.entry }
{
    let lift = bias(t);
    high_products(a, b) - where_negative(lift, a, b) - where_negative(lift, b, a)
}

/// The high halves at a narrower type, of products that 64 bits hold.
#[inline(always)]
fn high_narrow<const W: usize>(t: IntType, a: Simd<u64, W>, b: Simd<u64, W>) -> Simd<u64, W>
    requires fits { width_bits t ≤ 32 }
    requires lanes { W ≤ 64 }
    ensures { result ≡ zip2 (pair_lane 64 MulHi t) a.entry b.entry }
{
    let wide = wide_type(t);
    let product = values64(Bin::Mul, wide, extend64(t, a), extend64(t, b));
    let bits = Simd::splat(amount_bits(t) + 1);
    extend64(t, values64(Bin::Shr, wide, product, bits))
}

/// `mul_hi`.
#[inline(never)]
pub(crate) fn high_halves64<const W: usize>(
    t: IntType,
    a: Simd<u64, W>,
    b: Simd<u64, W>,
) -> [u64; W]
    requires fits { FitsLane 64 t }
    requires lanes { W ≤ 64 }
    ensures { result ≡ zip2 (pair_lane 64 MulHi t) a.entry b.entry }
{
    match t {
        IntType::Long | IntType::Ulong => high_whole(t, a, b).to_array(),
        _ => high_narrow(t, a, b).to_array(),
    }
}
