//! Operators on lanes of types of 32 bits, whose values take all bits of a lane: no lane is extended.
ghost use Rattle.std.specs.Prelude.{◌≡◌, ◌≤◌, map};
ghost use Rattle.std.specs.Simd.Lanes.{zip2};
ghost use Rattle.wg_num.specs.Wrap.{width_bits};
ghost use Rattle.lane_values.specs.Lanes.{binary_lane, convert_lane, extended};

use crate::lanes32::numbers32;
use std::simd::prelude::*;
use wg_num::{Bin, IntType};

/// Each lane is that of the value that its bits have.
#[inline(always)]
pub(crate) fn kept32<const W: usize>(t: IntType, a: Simd<u32, W>) -> Simd<u32, W>
    requires { width_bits t ≡ 32 }
    ensures { result ≡ map (extended 32 t) a.entry }
{
    a
}

/// The operator on each lane; of the right lanes of a shift any bits are taken.
#[inline(always)]
pub fn binary_plain32<const W: usize>(
    op: Bin,
    t: IntType,
    a: Simd<u32, W>,
    b: Simd<u32, W>,
) -> Simd<u32, W>
    requires { width_bits t ≡ 32 }
    ensures { result ≡ zip2 (binary_lane 32 op t) a.entry b.entry }
{
    kept32(t, numbers32(op, t, a, b))
}

/// A conversion from a type of 32 bits to one: no bit changes.
#[inline(always)]
pub fn same32<const W: usize>(to: IntType, a: Simd<u32, W>, from: IntType) -> Simd<u32, W>
    requires to { width_bits to ≡ 32 }
    requires from { width_bits from ≡ 32 }
    ensures { result ≡ map (convert_lane 32 to from) a.entry }
{
    kept32(to, kept32(from, a))
}
