//! The built-in functions on wide lanes. All but the shortest are out of line and answer arrays; `min` and `max`,
//! which kernels use most, come before them, so that their answers stay vectors.
ghost use Rattle.std.specs.Prelude.{◌≡◌, ◌≤◌, ◌+◌, ◌%◌, ◌^◌};
ghost use Rattle.std.specs.Simd.Lanes.{zip2};
ghost use Rattle.wg_num.specs.declared.types.Fun.TheVariants.{Clamp, Max, Min};
ghost use Rattle.lane_kernels.specs.Vectors.{greater_lane, lesser_lane, pair_lane};
ghost use Rattle.lane_values.specs.Lanes.{FitsLane, lane, builtin_lane, zip3};

use crate::bits64::{ones_in64, rotated64, zeros_above64};
use crate::lanes64::{bias, extend64};
use crate::products64::high_halves64;
use crate::sums64::{distances64, halves_down64, halves_up64, held_rests64, held_sums64, sizes64};
use crate::tally::Tally;
use std::simd::prelude::*;
use wg_num::{Fun, IntType};

/// The lane of a number: its low 64 bits in two's complement.
pub fn lane_of64(z: i128) -> u64
    ensures { result ≡ lane 64 z }
{
    z.rem_euclid(0x1_0000_0000_0000_0000) as u64
}

/// The lane of the lesser value of two lanes that hold values of the type.
fn lesser<const W: usize>(bias: u64, a: Simd<u64, W>, b: Simd<u64, W>) -> Simd<u64, W>
    ensures { result ≡ zip2 (lesser_lane 64 bias) a.entry b.entry }
{
    let raise = Simd::splat(bias);
    (b + raise).simd_lt(a + raise).select(b, a)
}

/// The lane of the greater value of two lanes that hold values of the type.
fn greater<const W: usize>(bias: u64, a: Simd<u64, W>, b: Simd<u64, W>) -> Simd<u64, W>
    ensures { result ≡ zip2 (greater_lane 64 bias) a.entry b.entry }
{
    let raise = Simd::splat(bias);
    (b + raise).simd_lt(a + raise).select(a, b)
}

/// `min`.
fn least64<const W: usize>(t: IntType, a: Simd<u64, W>, b: Simd<u64, W>) -> Simd<u64, W>
    requires { FitsLane 64 t }
    ensures { result ≡ zip2 (pair_lane 64 Min t) a.entry b.entry }
{
    lesser(bias(t), extend64(t, a), extend64(t, b))
}

/// `max`.
fn greatest64<const W: usize>(t: IntType, a: Simd<u64, W>, b: Simd<u64, W>) -> Simd<u64, W>
    requires { FitsLane 64 t }
    ensures { result ≡ zip2 (pair_lane 64 Max t) a.entry b.entry }
{
    greater(bias(t), extend64(t, a), extend64(t, b))
}

/// `clamp`.
#[inline(never)]
fn clamped64<const W: usize>(
    t: IntType,
    a: Simd<u64, W>,
    b: Simd<u64, W>,
    c: Simd<u64, W>,
) -> [u64; W]
    requires { FitsLane 64 t }
    ensures { result ≡ zip3 (builtin_lane 64 Clamp t) a.entry b.entry c.entry }
{
    let lift = bias(t);
    let raised = greater(lift, extend64(t, a), extend64(t, b));
    lesser(lift, raised, extend64(t, c)).to_array()
}

/// The function on each lane, as an array.
fn lanes_of64<const W: usize>(
    f: Fun,
    t: IntType,
    a: Simd<u64, W>,
    b: Simd<u64, W>,
    c: Simd<u64, W>,
) -> [u64; W]
    requires fits { FitsLane 64 t }
    requires lanes { W ≤ 64 }
    ensures { result ≡ zip3 (builtin_lane 64 f t) a.entry b.entry c.entry }
{
    match f {
        Fun::Min => least64(t, a, b).to_array(),
        Fun::Max => greatest64(t, a, b).to_array(),
        Fun::Clamp => clamped64(t, a, b, c),
        Fun::Rotate => rotated64(t, a, b),
        Fun::Abs => sizes64(t, a),
        Fun::AbsDiff => distances64(t, a, b),
        Fun::AddSat => held_sums64(t, a, b),
        Fun::SubSat => held_rests64(t, a, b),
        Fun::Hadd => halves_down64(t, a, b),
        Fun::Rhadd => halves_up64(t, a, b),
        Fun::MulHi => high_halves64(t, a, b),
        Fun::Clz => zeros_above64(t, a),
        Fun::Popcount => ones_in64(t, a),
    }
}

/// The function on each lane, which is read as the value of the type that its bits have; lanes that
/// the function does not take are ignored.
pub fn builtin64<const W: usize>(
    f: Fun,
    t: IntType,
    a: Simd<u64, W>,
    b: Simd<u64, W>,
    c: Simd<u64, W>,
    tally: &mut Tally,
) -> Simd<u64, W>
    requires fits { FitsLane 64 t }
    requires lanes { W ≤ 64 }
    ensures lanes { result ≡ zip3 (builtin_lane 64 f t) a.entry b.entry c.entry }
    ensures counted { tally.new ≡ (tally.old + 1) % 2 ^ 64 }
{
    tally.raise();
    if let Fun::Min = f {
        return least64(t, a, b);
    }
    if let Fun::Max = f {
        return greatest64(t, a, b);
    }
    Simd::from_array(lanes_of64(f, t, a, b, c))
}
