//! Operators on lanes of types of 64 bits, whose values take all bits of a lane: no lane is extended.
ghost use Rattle.std.specs.Prelude.{◌≡◌, ◌≤◌, map};
ghost use Rattle.std.specs.Simd.Lanes.{zip2};
ghost use Rattle.wg_num.specs.Wrap.{width_bits};
ghost use Rattle.lane_values.specs.Lanes.{binary_lane, convert_lane, extended};

use crate::lanes64::numbers64;
use std::simd::prelude::*;
use wg_num::{Bin, IntType};

/// Each lane is that of the value that its bits have.
#[inline(always)]
pub(crate) fn kept64<const W: usize>(t: IntType, a: Simd<u64, W>) -> Simd<u64, W>
    requires { width_bits t ≡ 64 }
    ensures { result ≡ map (extended 64 t) a.entry }
{
    a
}

/// The operator on each lane; of the right lanes of a shift any bits are taken.
#[inline(always)]
pub fn binary_plain64<const W: usize>(
    op: Bin,
    t: IntType,
    a: Simd<u64, W>,
    b: Simd<u64, W>,
) -> Simd<u64, W>
    requires { width_bits t ≡ 64 }
    ensures { result ≡ zip2 (binary_lane 64 op t) a.entry b.entry }
{
    kept64(t, numbers64(op, t, a, b))
}

/// A conversion from a type of 64 bits to one: no bit changes.
#[inline(always)]
pub fn same64<const W: usize>(to: IntType, a: Simd<u64, W>, from: IntType) -> Simd<u64, W>
    requires to { width_bits to ≡ 64 }
    requires from { width_bits from ≡ 64 }
    ensures { result ≡ map (convert_lane 64 to from) a.entry }
{
    kept64(to, kept64(from, a))
}
