//! Narrow lanes: values of types up to 32 bits, extended to 32 bits.
ghost use Rattle.std.specs.Prelude.{◌≡◌, ◌≢◌, ◌<◌, ◌≤◌, ◌+◌, ◌-◌, ◌%◌, ◌^◌, map, false, replicate, IfSome};
ghost use Rattle.std.specs.Bool.{OnTrue};
ghost use Rattle.std.specs.Simd.Lanes.{zip2, Each1};
ghost use Rattle.wg_num.specs.Wrap.{half, modulus, width_bits, value_of};
ghost use Rattle.wg_num.specs.Operators.{is_shift};
ghost use Rattle.lane_values.specs.Lanes.{FitsLane, IsLane, binary_value, binary_lane, unary_value, unary_lane};
ghost use Rattle.lane_values.specs.Lanes.{extended};
ghost use Rattle.lane_kernels.specs.Vectors.{bias_of, signed_by, divisor_of, quotient_lane, rest_lane, shl_lane};
ghost use Rattle.lane_kernels.specs.Vectors.{shr_lane, moved_lane, less_lane, at_most_lane};

use crate::tally::Tally;
use std::simd::prelude::*;
use wg_num::{Bin, IntType, Un};

/// How many values of the type are negative.
#[tactic(auto, unfolding(wg_num::specs::Wrap::half))]
pub(crate) fn half_of(t: IntType) -> u32
    requires { FitsLane 32 t }
    ensures { result ≡ half t }
{
    match t {
        IntType::Char => 0x80,
        IntType::Short => 0x8000,
        IntType::Int => 0x8000_0000,
        _ => 0,
    }
}

/// The bits that a value of the type takes.
#[tactic(auto, unfolding(wg_num::specs::Wrap::modulus))]
pub(crate) fn low_bits(t: IntType) -> u32
    requires { FitsLane 32 t }
    ensures { result ≡ modulus t - 1 }
{
    match t {
        IntType::Bool | IntType::Char | IntType::Uchar => 0xff,
        IntType::Short | IntType::Ushort => 0xffff,
        _ => 0xffff_ffff,
    }
}

pub(crate) fn bias(t: IntType) -> u32
    ensures { result ≡ bias_of 32 t }
{
    match t {
        IntType::Char | IntType::Short | IntType::Int | IntType::Long => 0x8000_0000,
        _ => 0,
    }
}

/// Whether the values of the type take all bits of a lane.
fn is_whole(t: IntType) -> bool
    requires { FitsLane 32 t }
    ensures { OnTrue result (width_bits t ≡ 32) }
{
    match t {
        IntType::Int | IntType::Uint => true,
        _ => false,
    }
}

/// Each lane becomes the lane of the value that its low bits have in the type.
pub(crate) fn extend32<const W: usize>(t: IntType, a: Simd<u32, W>) -> Simd<u32, W>
    requires { FitsLane 32 t }
    ensures { result ≡ map (extended 32 t) a.entry }
{
    if let IntType::Bool = t {
        return a
            .simd_ne(Simd::splat(0))
            .select(Simd::splat(1), Simd::splat(0));
    }
    if is_whole(t) {
        return a;
    }
    let half = Simd::splat(half_of(t));
    ((a + half) & Simd::splat(low_bits(t))) - half
}

/// Where `sign` stands for a negative number, the two's complement of `a`, and else `a`.
fn signed_as<const W: usize>(bias: u32, sign: Simd<u32, W>, a: Simd<u32, W>) -> Simd<u32, W>
    ensures { result ≡ zip2 (signed_by 32 bias) sign.entry a.entry }
{
    let raise = Simd::splat(bias);
    (sign + raise).simd_lt(raise).select(Simd::splat(0) - a, a)
}

/// The magnitudes of divisors, and 1 for 0.
fn divisors<const W: usize>(bias: u32, b: Simd<u32, W>) -> Simd<u32, W>
    ensures { result ≡ map (divisor_of 32 bias) b.entry }
{
    let size = signed_as(bias, b, b);
    size.simd_eq(Simd::splat(0)).select(Simd::splat(1), size)
}

/// The power of two that a number is, by its exponent.
fn exponent_of(d: u32) -> Option<u32>
    ensures { IfSome result (λ k. (2 ^ k ≡ d) × (k < 32)) }
{
    let k = d.trailing_zeros();
    if k < 32 && 1u32 << k == d {
        Some(k)
    } else {
        None
    }
}

/// The exponent of the power of two that all divisors are, as numbers that are not negative.
#[inline(always)]
fn shared_exponent<const W: usize>(bias: u32, b: Simd<u32, W>) -> Option<u32>
    ensures { IfSome result (λ k. (b.entry ≡ replicate W (2 ^ k)) × (k < 32) × (bias ≢ 0 → k < 31)) }
{
    let d = shared_lane(b)?;
    let k = exponent_of(d)?;
    if bias == 0 || k < 31 { Some(k) } else { None }
}

/// Quotients by a power of two, by its exponent: shifts, for which a negative number is first raised by one less than
/// the divisor.
#[inline(always)]
fn halved<const W: usize>(bias: u32, a: Simd<u32, W>, k: u32) -> Simd<u32, W>
    requires top { bias ≢ 0 → bias ≡ 2 ^ 31 }
    requires exponent { k < 32 }
    requires signed { bias ≢ 0 → k < 31 }
    ensures { result ≡ map (λ x. quotient_lane 32 bias x (2 ^ k)) a.entry }
{
    if bias == 0 {
        return a >> Simd::splat(k);
    }
    let raise = Simd::splat(bias);
    let more = (a + raise)
        .simd_lt(raise)
        .select(Simd::splat((1 << k) - 1), Simd::splat(0));
    moved_right(bias, a + more, Simd::splat(k))
}

#[inline(never)]
fn quotients<const W: usize>(bias: u32, a: Simd<u32, W>, b: Simd<u32, W>) -> [u32; W]
    requires { bias ≢ 0 → bias ≡ 2 ^ 31 }
    ensures { result ≡ zip2 (quotient_lane 32 bias) a.entry b.entry }
{
    if let Some(k) = shared_exponent(bias, b) {
        return halved(bias, a, k).to_array();
    }
    let size = signed_as(bias, a, a) / divisors(bias, b);
    let quotient = signed_as(bias, b, signed_as(bias, a, size));
    b.simd_eq(Simd::splat(0))
        .select(Simd::splat(0), quotient)
        .to_array()
}

#[inline(never)]
fn rests<const W: usize>(bias: u32, a: Simd<u32, W>, b: Simd<u32, W>) -> [u32; W]
    requires { bias ≢ 0 → bias ≡ 2 ^ 31 }
    ensures { result ≡ zip2 (rest_lane 32 bias) a.entry b.entry }
{
    if let Some(k) = shared_exponent(bias, b) {
        return (a - halved(bias, a, k) * b).to_array();
    }
    let rest = signed_as(bias, a, signed_as(bias, a, a) % divisors(bias, b));
    b.simd_eq(Simd::splat(0)).select(a, rest).to_array()
}

/// The bits of a shift's amount.
pub(crate) fn amount_bits(t: IntType) -> u32
    requires { FitsLane 32 t }
    ensures { result ≡ width_bits t - 1 }
{
    match t {
        IntType::Bool | IntType::Char | IntType::Uchar => 7,
        IntType::Short | IntType::Ushort => 15,
        _ => 31,
    }
}

pub(crate) fn amounts<const W: usize>(t: IntType, b: Simd<u32, W>) -> Simd<u32, W>
    requires { FitsLane 32 t }
    ensures { result ≡ map (λ q. q % width_bits t) b.entry }
{
    b & Simd::splat(amount_bits(t))
}

/// The entry that all lanes have, if they have one; with more than 64 lanes they are not compared.
#[inline(always)]
pub fn shared_lane<const W: usize>(b: Simd<u32, W>) -> Option<u32>
    ensures { IfSome result (λ d. b.entry ≡ replicate W d) }
{
    let first = match b.to_array().first() {
        Some(first) => *first,
        None => 0,
    };
    if W <= 64 && b.simd_eq(Simd::splat(first)).all() {
        Some(first)
    } else {
        None
    }
}

/// Left lanes shifted by the amount beside each; out of line, so that it is not one with a shift of all lanes alike.
#[inline(never)]
fn shifted_each<const W: usize>(t: IntType, a: Simd<u32, W>, b: Simd<u32, W>) -> [u32; W]
    requires { FitsLane 32 t }
    ensures { result ≡ zip2 (shl_lane 32 (width_bits t)) a.entry b.entry }
{
    (a << amounts(t, b)).to_array()
}

fn shifted_left<const W: usize>(t: IntType, a: Simd<u32, W>, b: Simd<u32, W>) -> Simd<u32, W>
    requires { FitsLane 32 t }
    ensures { result ≡ zip2 (shl_lane 32 (width_bits t)) a.entry b.entry }
{
    if let Some(amount) = shared_lane(b) {
        return a << Simd::splat(amount & amount_bits(t));
    }
    Simd::from_array(shifted_each(t, a, b))
}

/// Each lane, as the number that it stands for, shifted right by the amount beside it.
#[inline(always)]
fn moved_right<const W: usize>(bias: u32, a: Simd<u32, W>, amount: Simd<u32, W>) -> Simd<u32, W>
    requires { Each1 (λ k. k < 32) amount }
    ensures { result ≡ zip2 (moved_lane 32 bias) a.entry amount.entry }
{
    if bias == 0 {
        return a >> amount;
    }
    let raise = Simd::splat(bias);
    ((a + raise) >> amount) - (raise >> amount)
}

fn shifted_right<const W: usize>(t: IntType, a: Simd<u32, W>, b: Simd<u32, W>) -> Simd<u32, W>
    requires { FitsLane 32 t }
    ensures { result ≡ zip2 (shr_lane 32 (bias_of 32 t) (width_bits t)) a.entry b.entry }
{
    if let Some(amount) = shared_lane(b) {
        return moved_right(bias(t), a, Simd::splat(amount & amount_bits(t)));
    }
    moved_right(bias(t), a, amounts(t, b))
}

/// 1 where the number of `a` is less than that of `b`, and else 0.
fn are_less<const W: usize>(bias: u32, a: Simd<u32, W>, b: Simd<u32, W>) -> Simd<u32, W>
    requires { bias ≢ 0 → bias ≡ 2 ^ 31 }
    ensures { result ≡ zip2 (less_lane 32 bias) a.entry b.entry }
{
    if bias == 0 {
        return a.simd_lt(b).select(Simd::splat(1), Simd::splat(0));
    }
    let raise = Simd::splat(0x8000_0000);
    (a + raise)
        .simd_lt(b + raise)
        .select(Simd::splat(1), Simd::splat(0))
}

/// 1 where the number of `a` is at most that of `b`, and else 0.
fn are_at_most<const W: usize>(bias: u32, a: Simd<u32, W>, b: Simd<u32, W>) -> Simd<u32, W>
    requires { bias ≢ 0 → bias ≡ 2 ^ 31 }
    ensures { result ≡ zip2 (at_most_lane 32 bias) a.entry b.entry }
{
    if bias == 0 {
        return a.simd_le(b).select(Simd::splat(1), Simd::splat(0));
    }
    let raise = Simd::splat(0x8000_0000);
    (a + raise)
        .simd_le(b + raise)
        .select(Simd::splat(1), Simd::splat(0))
}

/// Numbers whose low bits have the values that the operator gives.
#[inline(always)]
pub(crate) fn numbers32<const W: usize>(
    op: Bin,
    t: IntType,
    a: Simd<u32, W>,
    b: Simd<u32, W>,
) -> Simd<u32, W>
    requires narrow { FitsLane 32 t }
    requires left { Each1 (IsLane 32 t) a }
    requires right { is_shift op ≡ false → Each1 (IsLane 32 t) b }
    ensures { map (value_of t) result ≡ zip2 (binary_value op t) a.entry b.entry }
{
    match op {
        Bin::Add => a + b,
        Bin::Sub => a - b,
        Bin::Mul => a * b,
        Bin::Div => Simd::from_array(quotients(bias(t), a, b)),
        Bin::Rem => Simd::from_array(rests(bias(t), a, b)),
        Bin::Shl => shifted_left(t, a, b),
        Bin::Shr => shifted_right(t, a, b),
        Bin::And => a & b,
        Bin::Or => a | b,
        Bin::Xor => a ^ b,
        Bin::Eq => a.simd_eq(b).select(Simd::splat(1), Simd::splat(0)),
        Bin::Ne => a.simd_ne(b).select(Simd::splat(1), Simd::splat(0)),
        Bin::Lt => are_less(bias(t), a, b),
        Bin::Le => are_at_most(bias(t), a, b),
        Bin::Gt => are_less(bias(t), b, a),
        Bin::Ge => are_at_most(bias(t), b, a),
    }
}

/// The operator on lanes that hold values of the type.
#[inline(always)]
fn values32<const W: usize>(op: Bin, t: IntType, a: Simd<u32, W>, b: Simd<u32, W>) -> Simd<u32, W>
    requires narrow { FitsLane 32 t }
    requires left { Each1 (IsLane 32 t) a }
    requires right { is_shift op ≡ false → Each1 (IsLane 32 t) b }
    ensures { result ≡ zip2 (binary_lane 32 op t) a.entry b.entry }
{
    extend32(t, numbers32(op, t, a, b))
}

/// The operator on each lane, which is read as the value of the type that its bits have; of the
/// right lanes of a shift any bits are taken.
pub fn binary32<const W: usize>(
    op: Bin,
    t: IntType,
    a: Simd<u32, W>,
    b: Simd<u32, W>,
    tally: &mut Tally,
) -> Simd<u32, W>
    requires fits { FitsLane 32 t }
    requires lanes { W ≤ 64 }
    ensures lanes { result ≡ zip2 (binary_lane 32 op t) a.entry b.entry }
    ensures counted { tally.new ≡ (tally.old + 1) % 2 ^ 64 }
{
    tally.raise();
    if is_whole(t) {
        return values32(op, t, a, b);
    }
    let left = extend32(t, a);
    match op {
        Bin::Shl | Bin::Shr => values32(op, t, left, b),
        _ => values32(op, t, left, extend32(t, b)),
    }
}

/// Numbers whose low bits have the values that the operator gives.
fn unary_numbers32<const W: usize>(op: Un, t: IntType, a: Simd<u32, W>) -> Simd<u32, W>
    requires narrow { FitsLane 32 t }
    requires lanes { Each1 (IsLane 32 t) a }
    ensures { map (value_of t) result ≡ map (unary_value op t) a.entry }
{
    match op {
        Un::Plus => a,
        Un::Minus => Simd::splat(0) - a,
        Un::Flip => !a,
        Un::Not => a
            .simd_eq(Simd::splat(0))
            .select(Simd::splat(1), Simd::splat(0)),
    }
}

/// The operator on each lane, which is read as the value of the type that its bits have.
pub fn unary32<const W: usize>(
    op: Un,
    t: IntType,
    a: Simd<u32, W>,
    tally: &mut Tally,
) -> Simd<u32, W>
    requires fits { FitsLane 32 t }
    requires lanes { W ≤ 64 }
    ensures lanes { result ≡ map (unary_lane 32 op t) a.entry }
    ensures counted { tally.new ≡ (tally.old + 1) % 2 ^ 64 }
{
    tally.raise();
    extend32(t, unary_numbers32(op, t, extend32(t, a)))
}
