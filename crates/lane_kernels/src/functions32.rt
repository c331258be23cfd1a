//! The built-in functions on narrow lanes. All but the shortest are out of line and answer arrays; `min` and `max`,
//! which kernels use most, come before them, so that their answers stay vectors.
ghost use Rattle.std.specs.Prelude.{◌≡◌, ◌≤◌, ◌+◌, ◌%◌, ◌^◌};
ghost use Rattle.std.specs.Simd.Lanes.{zip2};
ghost use Rattle.wg_num.specs.declared.types.Fun.TheVariants.{Clamp, Max, Min};
ghost use Rattle.lane_kernels.specs.Vectors.{greater_lane, lesser_lane, pair_lane};
ghost use Rattle.lane_values.specs.Lanes.{FitsLane, lane, builtin_lane, zip3};

use crate::bits32::{ones_in32, rotated32, zeros_above32};
use crate::lanes32::{bias, extend32};
use crate::products32::high_halves32;
use crate::sums32::{distances32, halves_down32, halves_up32, held_rests32, held_sums32, sizes32};
use crate::tally::Tally;
use std::simd::prelude::*;
use wg_num::{Fun, IntType};

/// The lane of a number: its low 32 bits in two's complement.
pub fn lane_of32(z: i128) -> u32
    ensures { result ≡ lane 32 z }
{
    z.rem_euclid(0x1_0000_0000) as u32
}

/// The lane of the lesser value of two lanes that hold values of the type.
fn lesser<const W: usize>(bias: u32, a: Simd<u32, W>, b: Simd<u32, W>) -> Simd<u32, W>
    ensures { result ≡ zip2 (lesser_lane 32 bias) a.entry b.entry }
{
    let raise = Simd::splat(bias);
    (b + raise).simd_lt(a + raise).select(b, a)
}

/// The lane of the greater value of two lanes that hold values of the type.
fn greater<const W: usize>(bias: u32, a: Simd<u32, W>, b: Simd<u32, W>) -> Simd<u32, W>
    ensures { result ≡ zip2 (greater_lane 32 bias) a.entry b.entry }
{
    let raise = Simd::splat(bias);
    (b + raise).simd_lt(a + raise).select(a, b)
}

/// `min`.
fn least32<const W: usize>(t: IntType, a: Simd<u32, W>, b: Simd<u32, W>) -> Simd<u32, W>
    requires { FitsLane 32 t }
    ensures { result ≡ zip2 (pair_lane 32 Min t) a.entry b.entry }
{
    lesser(bias(t), extend32(t, a), extend32(t, b))
}

/// `max`.
fn greatest32<const W: usize>(t: IntType, a: Simd<u32, W>, b: Simd<u32, W>) -> Simd<u32, W>
    requires { FitsLane 32 t }
    ensures { result ≡ zip2 (pair_lane 32 Max t) a.entry b.entry }
{
    greater(bias(t), extend32(t, a), extend32(t, b))
}

/// `clamp`.
#[inline(never)]
fn clamped32<const W: usize>(
    t: IntType,
    a: Simd<u32, W>,
    b: Simd<u32, W>,
    c: Simd<u32, W>,
) -> [u32; W]
    requires { FitsLane 32 t }
    ensures { result ≡ zip3 (builtin_lane 32 Clamp t) a.entry b.entry c.entry }
{
    let lift = bias(t);
    let raised = greater(lift, extend32(t, a), extend32(t, b));
    lesser(lift, raised, extend32(t, c)).to_array()
}

/// The function on each lane, as an array.
fn lanes_of32<const W: usize>(
    f: Fun,
    t: IntType,
    a: Simd<u32, W>,
    b: Simd<u32, W>,
    c: Simd<u32, W>,
) -> [u32; W]
    requires fits { FitsLane 32 t }
    requires lanes { W ≤ 64 }
    ensures { result ≡ zip3 (builtin_lane 32 f t) a.entry b.entry c.entry }
{
    match f {
        Fun::Min => least32(t, a, b).to_array(),
        Fun::Max => greatest32(t, a, b).to_array(),
        Fun::Clamp => clamped32(t, a, b, c),
        Fun::Rotate => rotated32(t, a, b),
        Fun::Abs => sizes32(t, a),
        Fun::AbsDiff => distances32(t, a, b),
        Fun::AddSat => held_sums32(t, a, b),
        Fun::SubSat => held_rests32(t, a, b),
        Fun::Hadd => halves_down32(t, a, b),
        Fun::Rhadd => halves_up32(t, a, b),
        Fun::MulHi => high_halves32(t, a, b),
        Fun::Clz => zeros_above32(t, a),
        Fun::Popcount => ones_in32(t, a),
    }
}

/// The function on each lane, which is read as the value of the type that its bits have; lanes that
/// the function does not take are ignored.
pub fn builtin32<const W: usize>(
    f: Fun,
    t: IntType,
    a: Simd<u32, W>,
    b: Simd<u32, W>,
    c: Simd<u32, W>,
    tally: &mut Tally,
) -> Simd<u32, W>
    requires fits { FitsLane 32 t }
    requires lanes { W ≤ 64 }
    ensures lanes { result ≡ zip3 (builtin_lane 32 f t) a.entry b.entry c.entry }
    ensures counted { tally.new ≡ (tally.old + 1) % 2 ^ 64 }
{
    tally.raise();
    if let Fun::Min = f {
        return least32(t, a, b);
    }
    if let Fun::Max = f {
        return greatest32(t, a, b);
    }
    Simd::from_array(lanes_of32(f, t, a, b, c))
}
