//! Masks: one truth value per lane.
ghost use Rattle.std.specs.Prelude.{◌≡◌, ◌≤◌, true, map, not, nat_eq, MatchOption};
ghost use Rattle.std.specs.List.{list_any, list_all};
ghost use Rattle.std.specs.Int.{from_bool};
ghost use Rattle.std.specs.Simd.Lanes.{sel_l};
ghost use Rattle.lane_values.specs.Masks.{IsEmpty, IsLowest};

use std::simd::prelude::*;

/// Whether every lane is set. More than 64 lanes have no mask of bits, and are read one by one.
#[inline(always)]
pub fn is_full<const W: usize>(mask: [bool; W]) -> bool
    ensures { result ≡ list_all (λ on. on) mask.entry }
{
    if W <= 64 {
        return bytes_of(mask).simd_eq(Simd::splat(1)).all();
    }
    mask.iter().all(|on| *on)
}

/// 1 where the mask is set, and else 0, as bytes.
#[inline(always)]
pub fn bytes_of<const W: usize>(mask: [bool; W]) -> Simd<u8, W>
    ensures { result ≡ map from_bool mask.entry }
{
    let mut lanes = [0u8; W];
    for i in 0..W {
        lanes[i] = mask[i] as u8;
    }
    Simd::from_array(lanes)
}

/// 1 where the mask is set, and else 0.
fn numbers_of32<const W: usize>(mask: [bool; W]) -> Simd<u32, W>
    ensures { result ≡ map from_bool mask.entry }
{
    bytes_of(mask).cast::<u32>()
}

/// What `put32` does where some lane is not set, out of line, so that a step whose mask is full reads the mask alone.
#[inline(never)]
fn put_some32<const W: usize>(lanes: &mut Simd<u32, W>, mask: [bool; W], new: Simd<u32, W>)
    ensures { lanes.new ≡ sel_l mask.entry new.entry lanes.old }
{
    *lanes = numbers_of32(mask)
        .simd_ne(Simd::splat(0))
        .select(new, *lanes);
}

/// What `put32` leaves where every lane is set.
#[inline(always)]
fn all_of32<const W: usize>(mask: [bool; W], new: Simd<u32, W>, old: Simd<u32, W>) -> Simd<u32, W>
    requires { list_all (λ on. on) mask ≡ true }
    ensures { result ≡ sel_l mask.entry new.entry old.entry }
{
    new
}

/// The lanes of `new` in place of those that stand there, where the mask is set.
pub fn put32<const W: usize>(lanes: &mut Simd<u32, W>, mask: [bool; W], new: Simd<u32, W>)
    ensures { lanes.new ≡ sel_l mask.entry new.entry lanes.old }
{
    if is_full(mask) {
        *lanes = all_of32(mask, new, *lanes);
    } else {
        put_some32(lanes, mask, new);
    }
}

/// The lanes that are not 0.
pub fn nonzero32<const W: usize>(a: Simd<u32, W>) -> [bool; W]
    ensures { result ≡ map (λ x. not (nat_eq x 0)) a.entry }
{
    truths_of(ones32(a))
}

/// Whether each lane is not 0.
#[inline(always)]
pub fn truths_of<const W: usize>(numbers: Simd<u8, W>) -> [bool; W]
    ensures { result ≡ map (λ x. not (nat_eq x 0)) numbers.entry }
{
    let zero = Simd::splat(0);
    let lanes = numbers
        .simd_ne(zero)
        .select(Simd::splat(1), zero)
        .to_array();
    let mut set = [false; W];
    for i in 0..W {
        set[i] = lanes[i] != 0;
    }
    set
}

/// 1 where a lane is not 0, and else 0.
#[inline(always)]
fn ones32<const W: usize>(a: Simd<u32, W>) -> Simd<u8, W>
    ensures { result ≡ map (λ x. from_bool (not (nat_eq x 0))) a.entry }
{
    let zero = Simd::splat(0);
    a.simd_ne(zero).select(Simd::splat(1), zero).cast::<u8>()
}

/// The same of wide lanes.
#[inline(always)]
fn ones64<const W: usize>(a: Simd<u64, W>) -> Simd<u8, W>
    ensures { result ≡ map (λ x. from_bool (not (nat_eq x 0))) a.entry }
{
    let zero = Simd::splat(0);
    a.simd_ne(zero).select(Simd::splat(1), zero).cast::<u8>()
}

/// 1 where the mask is set, and else 0.
fn numbers_of64<const W: usize>(mask: [bool; W]) -> Simd<u64, W>
    ensures { result ≡ map from_bool mask.entry }
{
    bytes_of(mask).cast::<u32>().cast::<u64>()
}

/// What `put64` does where some lane is not set, out of line, so that a step whose mask is full reads the mask alone.
#[inline(never)]
fn put_some64<const W: usize>(lanes: &mut Simd<u64, W>, mask: [bool; W], new: Simd<u64, W>)
    ensures { lanes.new ≡ sel_l mask.entry new.entry lanes.old }
{
    *lanes = numbers_of64(mask)
        .simd_ne(Simd::splat(0))
        .select(new, *lanes);
}

/// What `put64` leaves where every lane is set.
#[inline(always)]
fn all_of64<const W: usize>(mask: [bool; W], new: Simd<u64, W>, old: Simd<u64, W>) -> Simd<u64, W>
    requires { list_all (λ on. on) mask ≡ true }
    ensures { result ≡ sel_l mask.entry new.entry old.entry }
{
    new
}

/// The lanes of `new` in place of those that stand there, where the mask is set.
pub fn put64<const W: usize>(lanes: &mut Simd<u64, W>, mask: [bool; W], new: Simd<u64, W>)
    ensures { lanes.new ≡ sel_l mask.entry new.entry lanes.old }
{
    if is_full(mask) {
        *lanes = all_of64(mask, new, *lanes);
    } else {
        put_some64(lanes, mask, new);
    }
}

/// The lanes that are not 0.
pub fn nonzero64<const W: usize>(a: Simd<u64, W>) -> [bool; W]
    ensures { result ≡ map (λ x. not (nat_eq x 0)) a.entry }
{
    truths_of(ones64(a))
}

/// Whether a lane is set.
pub fn any<const W: usize>(mask: [bool; W]) -> bool
    ensures { result ≡ list_any (λ on. on) mask.entry }
{
    mask.iter().any(|on| *on)
}

/// The lowest lane that is set; `None` exactly where none is.
pub fn lowest<const W: usize>(mask: [bool; W]) -> Option<u32>
    requires { W ≤ 64 }
    ensures { MatchOption result (IsEmpty mask.entry) (IsLowest mask.entry) }
{
    for (i, on) in mask.iter().enumerate() {
        if *on {
            return Some(i as u32);
        }
    }
    None
}
