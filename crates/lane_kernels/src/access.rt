//! One element of an object: where it stands, its bytes read and written; and lanes of elements.
ghost use Rattle.std.specs.Prelude.{◌≡◌, ◌+◌, ◌*◌, ◌<◌, ◌≤◌};
ghost use Rattle.std.specs.Prelude.{length, take, nat_lt, ℕ, MatchResult, MatchOption, IfErr, OnOk, not, true, false};
ghost use Rattle.std.specs.Bool.{OnTrue, OnFalse};
ghost use Rattle.std.specs.List.{list_all};
ghost use Rattle.std.specs.Simd.Lanes.{number_l, digits_l, chunk, put_chunk, zip2};
ghost use Rattle.wg_num.specs.Bytes.{size_of};
ghost use Rattle.lane_values.specs.Lanes.{FitsLane};
ghost use Rattle.lane_values.specs.Masks.{IsEmpty, IsLowest};
ghost use Rattle.lane_values.specs.Access.{is_within, is_fault, faults, put_element, lane_put, scattered};
ghost use Rattle.lane_kernels.specs.Vectors.{IsSize, IsNarrowSize, number_from, are_within};

use crate::masks::is_full;
use std::simd::prelude::*;
use wg_num::IntType;

/// How many bytes a value of the type has.
fn size_in_bytes(t: IntType) -> usize
    ensures value { result ≡ size_of t }
    ensures size { IsSize result }
{
    match t {
        IntType::Bool | IntType::Char | IntType::Uchar => 1,
        IntType::Short | IntType::Ushort => 2,
        IntType::Int | IntType::Uint => 4,
        IntType::Long | IntType::Ulong => 8,
    }
}

/// The number of the four bytes from a place on, lowest first, read as one vector, so that it is one load.
#[inline(always)]
fn four_bytes(bytes: &[u8], from: usize) -> u32
    requires { from + 4 ≤ length bytes.now }
    ensures { result ≡ number_l 256 (chunk from 4 bytes.now) }
{
    let four = Simd::<u8, 4>::from_slice(&bytes[from..from + 4]);
    Simd::<u32, 1>::from_le_bytes(four).to_array()[0]
}

/// The number whose bytes stand at element `at`, lowest first.
#[inline(always)]
fn number_at(bytes: &[u8], size: usize, at: usize) -> u64
    requires size { IsSize size }
    requires room { (at + 1) * size ≤ length bytes.now }
    ensures { result ≡ number_l 256 (chunk (at * size) size bytes.now) }
{
    let from = at * size;
    match size {
        1 => bytes[from] as u64,
        2 => bytes[from] as u64 + 0x100 * bytes[from + 1] as u64,
        4 => four_bytes(bytes, from) as u64,
        _ => four_bytes(bytes, from) as u64 + 0x1_0000_0000 * four_bytes(bytes, from + 4) as u64,
    }
}

/// Writes the low two bytes of a number, lowest first.
#[inline(always)]
fn put_two(bytes: &mut [u8], from: usize, x: u64)
    requires { from + 2 ≤ length bytes.old }
    ensures { bytes.new ≡ put_chunk from bytes.old (digits_l 256 2 x) }
{
    let high = x / 0x100;
    bytes[from] = (x % 0x100) as u8;
    bytes[from + 1] = (high % 0x100) as u8;
}

/// Writes the low four bytes of a number, lowest first.
#[inline(always)]
fn put_four(bytes: &mut [u8], from: usize, x: u64)
    requires { from + 4 ≤ length bytes.old }
    ensures { bytes.new ≡ put_chunk from bytes.old (digits_l 256 4 x) }
{
    let second = x / 0x100;
    let third = second / 0x100;
    let fourth = third / 0x100;
    bytes[from] = (x % 0x100) as u8;
    bytes[from + 1] = (second % 0x100) as u8;
    bytes[from + 2] = (third % 0x100) as u8;
    bytes[from + 3] = (fourth % 0x100) as u8;
}

/// Writes the low bytes of a number at element `at`.
#[inline(always)]
fn put_number(bytes: &mut [u8], size: usize, at: usize, x: u64)
    requires size { IsSize size }
    requires room { (at + 1) * size ≤ length bytes.old }
    ensures { bytes.new ≡ put_element size bytes.old at x }
{
    let from = at * size;
    match size {
        1 => bytes[from] = (x % 0x100) as u8,
        2 => put_two(bytes, from, x),
        4 => put_four(bytes, from, x),
        _ => {
            put_four(bytes, from, x);
            put_four(bytes, from + 4, x / 0x1_0000_0000);
        }
    }
}

#[inline(always)]
fn is_below(at: u64, count: u64) -> bool
    ensures { result ≡ nat_lt at count }
{
    at < count
}

/// How many elements of a size lie within `len` bytes and have an index.
#[inline(always)]
fn elements_in(size: usize, len: usize) -> u64
    requires { 0 < size }
    ensures { (at : ℕ) → nat_lt at result ≡ is_within size len at }
{
    ((len / size) as u64).min(1 << 63)
}

/// The number at element `at`, and 0 where the lane is inactive; `None` exactly where an active
/// lane's element is not one of the first `count`, which are those in range.
#[inline(always)]
fn number_for(bytes: &[u8], size: usize, count: u64, on: bool, at: u64) -> Option<u64>
    requires size { IsSize size }
    requires count { (k : ℕ) → nat_lt k count ≡ is_within size (length bytes.now) k }
    ensures { MatchOption result
        (is_fault size (length bytes.now) on at ≡ true)
        (λ x. (is_fault size (length bytes.now) on at ≡ false) × (x ≡ number_from size bytes.now on at)) }
{
    if !on {
        return Some(0);
    }
    if !is_below(at, count) {
        return None;
    }
    Some(number_at(bytes, size, at as usize))
}

/// The numbers at the active lanes' places, of elements of one size, and 0 in inactive lanes; or
/// the lowest active lane whose element is out of range.
fn gather_of<const W: usize, const S: usize>(
    bytes: &[u8],
    places: [u64; W],
    mask: [bool; W],
) -> Result<[u64; W], u32>
    requires size { IsSize S }
    requires lanes { W ≤ 64 }
    ensures { MatchResult result
        (λ v. IsEmpty (faults S (length bytes.now) mask.entry places.entry) ×
        (v ≡ zip2 (number_from S bytes.now) mask.entry places.entry))
        (IsLowest (faults S (length bytes.now) mask.entry places.entry)) }
{
    let count = elements_in(S, bytes.len());
    let mut lanes = [0u64; W];
    for i in 0..W {
        match number_for(bytes, S, count, mask[i], places[i]) {
            Some(lane) => lanes[i] = lane,
            None => return Err(i as u32),
        }
    }
    Ok(lanes)
}

/// The same of elements of a type.
pub(crate) fn gather_numbers<const W: usize>(
    bytes: &[u8],
    t: IntType,
    places: [u64; W],
    mask: [bool; W],
) -> Result<[u64; W], u32>
    requires lanes { W ≤ 64 }
    ensures { MatchResult result
        (λ v. IsEmpty (faults (size_of t) (length bytes.now) mask.entry places.entry) ×
        (v ≡ zip2 (number_from (size_of t) bytes.now) mask.entry places.entry))
        (IsLowest (faults (size_of t) (length bytes.now) mask.entry places.entry)) }
{
    match size_in_bytes(t) {
        1 => gather_of::<W, 1>(bytes, places, mask),
        2 => gather_of::<W, 2>(bytes, places, mask),
        4 => gather_of::<W, 4>(bytes, places, mask),
        _ => gather_of::<W, 8>(bytes, places, mask),
    }
}

/// The number of at most four bytes at element `at`, lowest first.
#[inline(always)]
fn narrow_at(bytes: &[u8], size: usize, at: usize) -> u32
    requires size { IsNarrowSize size }
    requires room { (at + 1) * size ≤ length bytes.now }
    ensures { result ≡ number_l 256 (chunk (at * size) size bytes.now) }
{
    let from = at * size;
    match size {
        1 => bytes[from] as u32,
        2 => bytes[from] as u32 + 0x100 * bytes[from + 1] as u32,
        _ => four_bytes(bytes, from),
    }
}

/// What `number_for` answers, of elements of at most four bytes.
#[inline(always)]
fn narrow_for(bytes: &[u8], size: usize, count: u64, on: bool, at: u64) -> Option<u32>
    requires size { IsNarrowSize size }
    requires count { (k : ℕ) → nat_lt k count ≡ is_within size (length bytes.now) k }
    ensures { MatchOption result
        (is_fault size (length bytes.now) on at ≡ true)
        (λ x. (is_fault size (length bytes.now) on at ≡ false) × (x ≡ number_from size bytes.now on at)) }
{
    if on {
        if !is_below(at, count) {
            return None;
        }
        return Some(narrow_at(bytes, size, at as usize));
    }
    Some(0)
}

/// Whether every place is below the count.
#[inline(always)]
fn are_below<const W: usize>(places: [u64; W], count: u64) -> bool
    ensures { result ≡ list_all (λ at. nat_lt at count) places.entry }
{
    let mut below = true;
    for i in 0..W {
        below &= is_below(places[i], count);
    }
    below
}

/// The number of at most four bytes at one of the first `count` elements, which are those in range.
#[inline(always)]
fn narrow_below(bytes: &[u8], size: usize, count: u64, at: u64) -> u32
    requires size { IsNarrowSize size }
    requires count { (k : ℕ) → nat_lt k count ≡ is_within size (length bytes.now) k }
    requires below { nat_lt at count ≡ true }
    ensures clear { is_fault size (length bytes.now) true at ≡ false }
    ensures value { result ≡ number_from size bytes.now true at }
{
    narrow_at(bytes, size, at as usize)
}

/// What `narrow_of` answers where every lane is active and its element is one of the first `count`.
#[inline(always)]
fn narrow_each<const W: usize, const S: usize>(
    bytes: &[u8],
    count: u64,
    places: [u64; W],
    mask: [bool; W],
) -> [u32; W]
    requires size { IsNarrowSize S }
    requires lanes { W ≤ 64 }
    requires count { (k : ℕ) → nat_lt k count ≡ is_within S (length bytes.now) k }
    requires full { list_all (λ on. on) mask ≡ true }
    requires below { list_all (λ at. nat_lt at count) places ≡ true }
    ensures clear { IsEmpty (faults S (length bytes.now) mask.entry places.entry) }
    ensures values { result ≡ zip2 (number_from S bytes.now) mask.entry places.entry }
{
    let mut lanes = [0u32; W];
    for i in 0..W {
        lanes[i] = narrow_below(bytes, S, count, places[i]);
    }
    lanes
}

/// What `narrow_of` answers where every lane is active and in range: no lane is tested by itself.
/// `None` exactly where one is not.
#[inline(always)]
fn whole_of<const W: usize, const S: usize>(
    bytes: &[u8],
    places: [u64; W],
    mask: [bool; W],
) -> Option<[u32; W]>
    requires size { IsNarrowSize S }
    requires lanes { W ≤ 64 }
    ensures { MatchOption result
        (are_within S (length bytes.now) mask.entry places.entry ≡ false)
        (λ v. (are_within S (length bytes.now) mask.entry places.entry ≡ true) ×
        ((IsEmpty (faults S (length bytes.now) mask.entry places.entry)) ×
        (v ≡ zip2 (number_from S bytes.now) mask.entry places.entry))) }
{
    let count = elements_in(S, bytes.len());
    if is_full(mask) && are_below(places, count) {
        return Some(narrow_each::<W, S>(bytes, count, places, mask));
    }
    None
}

/// The same of elements of a type of at most 32 bits.
#[inline(always)]
pub(crate) fn gather_whole<const W: usize>(
    bytes: &[u8],
    t: IntType,
    places: [u64; W],
    mask: [bool; W],
) -> Option<[u32; W]>
    requires fits { FitsLane 32 t }
    requires lanes { W ≤ 64 }
    ensures { MatchOption result
        (are_within (size_of t) (length bytes.now) mask.entry places.entry ≡ false)
        (λ v. (are_within (size_of t) (length bytes.now) mask.entry places.entry ≡ true) ×
        ((IsEmpty (faults (size_of t) (length bytes.now) mask.entry places.entry)) ×
        (v ≡ zip2 (number_from (size_of t) bytes.now) mask.entry places.entry))) }
{
    match size_in_bytes(t) {
        1 => whole_of::<W, 1>(bytes, places, mask),
        2 => whole_of::<W, 2>(bytes, places, mask),
        _ => whole_of::<W, 4>(bytes, places, mask),
    }
}

/// What `gather_of` answers, of elements of at most four bytes.
fn narrow_of<const W: usize, const S: usize>(
    bytes: &[u8],
    places: [u64; W],
    mask: [bool; W],
) -> Result<[u32; W], u32>
    requires size { IsNarrowSize S }
    requires lanes { W ≤ 64 }
    ensures { MatchResult result
        (λ v. IsEmpty (faults S (length bytes.now) mask.entry places.entry) ×
        (v ≡ zip2 (number_from S bytes.now) mask.entry places.entry))
        (IsLowest (faults S (length bytes.now) mask.entry places.entry)) }
{
    let count = elements_in(S, bytes.len());
    let mut lanes = [0u32; W];
    for i in 0..W {
        match narrow_for(bytes, S, count, mask[i], places[i]) {
            Some(lane) => lanes[i] = lane,
            None => return Err(i as u32),
        }
    }
    Ok(lanes)
}

/// What `gather_numbers` answers, of elements of a type of at most 32 bits.
pub(crate) fn gather_narrow<const W: usize>(
    bytes: &[u8],
    t: IntType,
    places: [u64; W],
    mask: [bool; W],
) -> Result<[u32; W], u32>
    requires fits { FitsLane 32 t }
    requires lanes { W ≤ 64 }
    ensures { MatchResult result
        (λ v. IsEmpty (faults (size_of t) (length bytes.now) mask.entry places.entry) ×
        (v ≡ zip2 (number_from (size_of t) bytes.now) mask.entry places.entry))
        (IsLowest (faults (size_of t) (length bytes.now) mask.entry places.entry)) }
{
    match size_in_bytes(t) {
        1 => narrow_of::<W, 1>(bytes, places, mask),
        2 => narrow_of::<W, 2>(bytes, places, mask),
        _ => narrow_of::<W, 4>(bytes, places, mask),
    }
}

/// Stores the lane if it is active; `false`, with the bytes as they were, exactly where it is
/// active and its place is out of range.
#[inline(always)]
fn put_lane(bytes: &mut [u8], size: usize, count: u64, on: bool, at: u64, x: u64) -> bool
    requires size { IsSize size }
    requires count { (k : ℕ) → nat_lt k count ≡ is_within size (length bytes.old) k }
    ensures done { result ≡ not (is_fault size (length bytes.old) on at) }
    ensures stored { OnTrue result (bytes.new ≡ lane_put size bytes.old on at x) }
    ensures kept { OnFalse result (bytes.new ≡ bytes.old) }
{
    let is_off = !on;
    if is_off {
        return true;
    }
    if !is_below(at, count) {
        return false;
    }
    put_number(bytes, size, at as usize, x);
    true
}

/// Stores a number at one of the first `count` elements of at most four bytes, which are those in range.
#[inline(always)]
fn put_below(bytes: &mut [u8], size: usize, count: u64, at: u64, x: u32)
    requires size { IsNarrowSize size }
    requires count { (k : ℕ) → nat_lt k count ≡ is_within size (length bytes.old) k }
    requires below { nat_lt at count ≡ true }
    ensures clear { is_fault size (length bytes.old) true at ≡ false }
    ensures stored { bytes.new ≡ lane_put size bytes.old true at x }
{
    put_number(bytes, size, at as usize, x as u64);
}

/// What `scatter_of` does where every lane is active and its element is one of the first `count`.
#[inline(always)]
fn put_each<const W: usize, const S: usize>(
    bytes: &mut [u8],
    count: u64,
    places: [u64; W],
    lanes: [u32; W],
    mask: [bool; W],
)
    requires size { IsNarrowSize S }
    requires lanes { W ≤ 64 }
    requires count { (k : ℕ) → nat_lt k count ≡ is_within S (length bytes.old) k }
    requires full { list_all (λ on. on) mask ≡ true }
    requires below { list_all (λ at. nat_lt at count) places ≡ true }
    ensures clear { IsEmpty (faults S (length bytes.old) mask.entry places.entry) }
    ensures stored { bytes.new ≡ scattered S bytes.old mask.entry places.entry lanes.entry }
{
    for i in 0..W {
        put_below(bytes, S, count, places[i], lanes[i]);
    }
}

/// The same where every lane is active and in range, so that no lane is tested by itself; `false`, with the bytes as
/// they were, exactly where one is not.
#[inline(always)]
fn put_whole_of<const W: usize, const S: usize>(
    bytes: &mut [u8],
    places: [u64; W],
    lanes: [u32; W],
    mask: [bool; W],
) -> bool
    requires size { IsNarrowSize S }
    requires lanes { W ≤ 64 }
    ensures done { result ≡ are_within S (length bytes.old) mask.entry places.entry }
    ensures clear { OnTrue result (IsEmpty (faults S (length bytes.old) mask.entry places.entry)) }
    ensures stored { OnTrue result (bytes.new ≡ scattered S bytes.old mask.entry places.entry lanes.entry) }
    ensures kept { OnFalse result (bytes.new ≡ bytes.old) }
{
    let count = elements_in(S, bytes.len());
    if is_full(mask) && are_below(places, count) {
        put_each::<W, S>(bytes, count, places, lanes, mask);
        return true;
    }
    false
}

/// The same as elements of a type of at most 32 bits.
#[inline(always)]
pub(crate) fn put_whole<const W: usize>(
    bytes: &mut [u8],
    t: IntType,
    places: [u64; W],
    lanes: [u32; W],
    mask: [bool; W],
) -> bool
    requires fits { FitsLane 32 t }
    requires lanes { W ≤ 64 }
    ensures done { result ≡ are_within (size_of t) (length bytes.old) mask.entry places.entry }
    ensures clear { OnTrue result (IsEmpty (faults (size_of t) (length bytes.old) mask.entry places.entry)) }
    ensures stored { OnTrue result (bytes.new ≡ scattered (size_of t) bytes.old mask.entry places.entry lanes.entry) }
    ensures kept { OnFalse result (bytes.new ≡ bytes.old) }
{
    match size_in_bytes(t) {
        1 => put_whole_of::<W, 1>(bytes, places, lanes, mask),
        2 => put_whole_of::<W, 2>(bytes, places, lanes, mask),
        _ => put_whole_of::<W, 4>(bytes, places, lanes, mask),
    }
}

/// Stores the active lanes as elements of one size, lane 0 first; or the lanes below the lowest
/// active lane whose place is out of range, which is then the error.
fn scatter_of<const W: usize, const S: usize>(
    bytes: &mut [u8],
    places: [u64; W],
    lanes: [u64; W],
    mask: [bool; W],
) -> Result<(), u32>
    requires size { IsSize S }
    requires lanes { W ≤ 64 }
    ensures cases { MatchResult result
        (λ _. IsEmpty (faults S (length bytes.old) mask.entry places.entry))
        (IsLowest (faults S (length bytes.old) mask.entry places.entry)) }
    ensures stored { OnOk result (bytes.new ≡ scattered S bytes.old mask.entry places.entry lanes.entry) }
    ensures below { IfErr result (λ k. bytes.new ≡ scattered S bytes.old (take k mask.entry) (take k places.entry)
        (take k lanes.entry)) }
{
    let count = elements_in(S, bytes.len());
    for i in 0..W {
        if !put_lane(bytes, S, count, mask[i], places[i], lanes[i]) {
            return Err(i as u32);
        }
    }
    Ok(())
}

/// The same as elements of a type.
pub(crate) fn scatter_numbers<const W: usize>(
    bytes: &mut [u8],
    t: IntType,
    places: [u64; W],
    lanes: [u64; W],
    mask: [bool; W],
) -> Result<(), u32>
    requires lanes { W ≤ 64 }
    ensures cases { MatchResult result
        (λ _. IsEmpty (faults (size_of t) (length bytes.old) mask.entry places.entry))
        (IsLowest (faults (size_of t) (length bytes.old) mask.entry places.entry)) }
    ensures stored { OnOk result (bytes.new ≡ scattered (size_of t) bytes.old mask.entry places.entry lanes.entry) }
    ensures below { IfErr result (λ k. bytes.new ≡ scattered (size_of t) bytes.old (take k mask.entry)
        (take k places.entry) (take k lanes.entry)) }
{
    match size_in_bytes(t) {
        1 => scatter_of::<W, 1>(bytes, places, lanes, mask),
        2 => scatter_of::<W, 2>(bytes, places, lanes, mask),
        4 => scatter_of::<W, 4>(bytes, places, lanes, mask),
        _ => scatter_of::<W, 8>(bytes, places, lanes, mask),
    }
}
