//! The high halves of products of narrow lanes, taken from products of wide ones.
ghost use Rattle.std.specs.Prelude.{◌≡◌, ◌≤◌, map};
ghost use Rattle.std.specs.Simd.Lanes.{zip2};
ghost use Rattle.wg_num.specs.Wrap.{width_bits};
ghost use Rattle.wg_num.specs.declared.types.Fun.TheVariants.{MulHi};
ghost use Rattle.lane_values.specs.Lanes.{FitsLane, convert_lane};
ghost use Rattle.lane_kernels.specs.Vectors.{pair_lane, wide_of};

use crate::convert::{narrowed, widened};
use crate::lanes32::amount_bits;
use crate::lanes64::values64;
use std::simd::prelude::*;
use wg_num::{Bin, IntType};

/// The type of 64 bits that has the products of values of a type of at most 32.
pub(crate) fn wide_type(t: IntType) -> IntType
    ensures { result ≡ wide_of t }
{
    match t {
        IntType::Char | IntType::Short | IntType::Int | IntType::Long => IntType::Long,
        _ => IntType::Ulong,
    }
}

/// `mul_hi`.
#[inline(never)]
pub(crate) fn high_halves32<const W: usize>(
    t: IntType,
    a: Simd<u32, W>,
    b: Simd<u32, W>,
) -> [u32; W]
    requires fits { FitsLane 32 t }
    requires lanes { W ≤ 64 }
    ensures { result ≡ zip2 (pair_lane 32 MulHi t) a.entry b.entry }
{
    let wide = wide_type(t);
    let product = values64(Bin::Mul, wide, widened(wide, a, t), widened(wide, b, t));
    let bits = Simd::splat(amount_bits(t) as u64 + 1);
    narrowed(t, values64(Bin::Shr, wide, product, bits), wide).to_array()
}
