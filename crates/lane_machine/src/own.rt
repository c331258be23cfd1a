//! Loads and stores of private arrays, of which each lane has its own.
ghost use Rattle.std.specs.Prelude.{◌≡◌, ◌≢◌, ◌<◌, ◌≤◌, ◌^◌, None, Some, [], true};
ghost use Rattle.std.specs.Prelude.{false, not, length, take, map, slice_index_or, slice_set, if◌then◌else◌};
ghost use Rattle.std.specs.Prelude.{MatchOption, MatchResult};
ghost use Rattle.std.specs.Bool.{OnTrue, OnFalse};
ghost use Rattle.wg_num.specs.Bytes.{size_of};
ghost use Rattle.lane_values.specs.Access.{is_fault, lane_from, lane_put, stored_lanes};
ghost use Rattle.lane_values.specs.Lanes.{FitsLane};
ghost use Rattle.lane_code.specs.Registers.{written, lanes_of, mask_of, bits_in, lowest};
ghost use Rattle.lane_code.specs.Groups.{window, with_window, own_faults, own_loaded, own_stored, own_cleared};
ghost use Rattle.lane_code.specs.declared.step.Bank.TheVariants.{Narrow, Wide, Mask, Scalar};
ghost use Rattle.lane_code.specs.Acts.{objects_stored};
ghost use Rattle.lane_machine.specs.State.{IsIn, FitsBank};

use crate::group_state::Group;
use crate::group_steps::lanes_for_column;
use crate::operands::Access;
use crate::registers::Registers;
use crate::shared::stored64;
use lane_code::{Bank, Reg};
use lane_kernels::{Tally, gather64, put32, put64, scatter64, whole32};
use std::simd::prelude::*;
use wg_num::IntType;

/// The lane of element `at`, and 0 where the lane is inactive; `None` exactly where an active
/// lane's element is out of range.
#[inline(always)]
fn load_lane(bytes: &[u8], t: IntType, on: bool, at: u64, tally: &mut Tally) -> Option<u64>
    requires { FitsLane 64 t }
    ensures { MatchOption result
        (is_fault (size_of t) (length bytes.now) on at ≡ true)
        (λ x. (is_fault (size_of t) (length bytes.now) on at ≡ false) × (x ≡ lane_from 64 t bytes.now on at)) }
{
    match gather64(bytes, t, Simd::<u64, 1>::splat(at), [on], tally) {
        Ok(lanes) => Some(lanes[0]),
        Err(_) => None,
    }
}

/// Stores the lane if it is active; `false`, with the bytes as they were, exactly where it is
/// active and its place is out of range.
#[inline(always)]
fn store_lane(bytes: &mut [u8], t: IntType, on: bool, at: u64, x: u64, tally: &mut Tally) -> bool
    requires { FitsLane 64 t }
    ensures done { result ≡ not (is_fault (size_of t) (length bytes.old) on at) }
    ensures stored { OnTrue result (bytes.new ≡ lane_put (size_of t) bytes.old on at x) }
    ensures kept { OnFalse result (bytes.new ≡ bytes.old) }
{
    let places = Simd::<u64, 1>::splat(at);
    let lanes = Simd::<u64, 1>::splat(x);
    match scatter64(bytes, t, places, lanes, [on], tally) {
        Ok(()) => true,
        Err(_) => false,
    }
}

/// The lane of the object of an item, as `load_lane`; a lane without an item has no bytes.
#[inline(always)]
fn load_item(
    objects: &[Vec<u8>],
    item: usize,
    t: IntType,
    on: bool,
    at: u64,
    tally: &mut Tally,
) -> Option<u64>
    requires { FitsLane 64 t }
    ensures { let bytes = slice_index_or (map (λ v. v.items) objects.now) item [] in
        MatchOption result
        (is_fault (size_of t) (length bytes) on at ≡ true)
        (λ x. (is_fault (size_of t) (length bytes) on at ≡ false) × (x ≡ lane_from 64 t bytes on at)) }
{
    match objects.get(item) {
        Some(bytes) => load_lane(bytes, t, on, at, tally),
        None => load_lane(&[], t, on, at, tally),
    }
}

/// The active lanes' elements, each of the object of its item, or the lowest lane out of range. Where it is called with a
/// type that is known, nothing is asked of the type for each lane.
#[inline(always)]
fn gather_wide<const W: usize>(
    objects: &[Vec<u8>],
    first: usize,
    t: IntType,
    index: [u64; W],
    mask: [bool; W],
    tally: &mut Tally,
) -> Result<[u64; W], u32>
    requires lanes { W ≤ 64 }
    requires first { first < 2 ^ 32 }
    requires fits { FitsLane 64 t }
    ensures { let own = window [] (map (λ v. v.items) objects.now) first W in
        MatchResult result
        (λ v. (lowest (own_faults (size_of t) mask.entry index.entry own) ≡ None) ×
        (v ≡ own_loaded 64 t mask.entry index.entry own))
        (λ k. lowest (own_faults (size_of t) mask.entry index.entry own) ≡ Some k) }
{
    let mut lanes = [0u64; W];
    for i in 0..W {
        match load_item(objects, first + i, t, mask[i], index[i], tally) {
            Some(lane) => lanes[i] = lane,
            None => return Err(i as u32),
        }
    }
    Ok(lanes)
}

/// The same, where each type of 64 bits has a loop of its own.
fn gather_own<const W: usize>(
    objects: &[Vec<u8>],
    first: usize,
    t: IntType,
    index: [u64; W],
    mask: [bool; W],
    tally: &mut Tally,
) -> Result<[u64; W], u32>
    requires lanes { W ≤ 64 }
    requires first { first < 2 ^ 32 }
    requires fits { FitsLane 64 t }
    ensures { let own = window [] (map (λ v. v.items) objects.now) first W in
        MatchResult result
        (λ v. (lowest (own_faults (size_of t) mask.entry index.entry own) ≡ None) ×
        (v ≡ own_loaded 64 t mask.entry index.entry own))
        (λ k. lowest (own_faults (size_of t) mask.entry index.entry own) ≡ Some k) }
{
    match t {
        IntType::Long => gather_wide(objects, first, IntType::Long, index, mask, tally),
        IntType::Ulong => gather_wide(objects, first, IntType::Ulong, index, mask, tally),
        _ => gather_wide(objects, first, t, index, mask, tally),
    }
}

#[inline(always)]
fn store_bytes(
    bytes: &mut Vec<u8>,
    t: IntType,
    on: bool,
    at: u64,
    x: u64,
    tally: &mut Tally,
) -> bool
    requires { FitsLane 64 t }
    ensures done { result ≡ not (is_fault (size_of t) (length bytes.old.items) on at) }
    ensures stored { OnTrue result (bytes.new.items ≡ lane_put (size_of t) bytes.old.items on at x) }
    ensures kept { OnFalse result (bytes.new.items ≡ bytes.old.items) }
{
    store_lane(bytes, t, on, at, x, tally)
}

/// Stores into the object of an item, as `store_lane`.
#[inline(always)]
fn store_item(
    objects: &mut Vec<Vec<u8>>,
    item: usize,
    t: IntType,
    on: bool,
    at: u64,
    x: u64,
    tally: &mut Tally,
) -> bool
    requires { FitsLane 64 t }
    ensures done { result ≡ not (is_fault (size_of t)
        (length (slice_index_or (map (λ v. v.items) objects.old.items) item [])) on at) }
    ensures stored { OnTrue result (map (λ v. v.items) objects.new.items ≡
        slice_set (map (λ v. v.items) objects.old.items) item
        (lane_put (size_of t) (slice_index_or (map (λ v. v.items) objects.old.items) item []) on at x)) }
    ensures kept { OnFalse result (map (λ v. v.items) objects.new.items ≡ map (λ v. v.items) objects.old.items) }
{
    if item < objects.len() {
        return store_bytes(&mut objects[item], t, on, at, x, tally);
    }
    let mut none = [0u8; 0];
    store_lane(&mut none, t, on, at, x, tally)
}

/// Stores the active lanes, each into the object of its item; or only those below the lowest active
/// lane that is out of range, which it answers.
#[inline(always)]
fn scatter_each<const W: usize>(
    objects: &mut Vec<Vec<u8>>,
    first: usize,
    t: IntType,
    index: [u64; W],
    from: [u64; W],
    mask: [bool; W],
    tally: &mut Tally,
) -> Option<u32>
    requires lanes { W ≤ 64 }
    requires first { first < 2 ^ 32 }
    requires fits { FitsLane 64 t }
    ensures { let old = map (λ v. v.items) objects.old.items in
        let own = window [] old first W in
        MatchOption result
        ((lowest (own_faults (size_of t) mask.entry index.entry own) ≡ None)
        × (map (λ v. v.items) objects.new.items ≡
        with_window old first (own_stored (size_of t) mask.entry index.entry from.entry own)))
        (λ k. (lowest (own_faults (size_of t) mask.entry index.entry own) ≡ Some k)
        × (map (λ v. v.items) objects.new.items ≡
        with_window old first (own_stored (size_of t) (take k mask.entry) (take k index.entry) (take k from.entry)
        own))) }
{
    for i in 0..W {
        if !store_item(objects, first + i, t, mask[i], index[i], from[i], tally) {
            return Some(i as u32);
        }
    }
    None
}

/// The same, where the types of 32 and 64 bits and bytes have loops of their own.
fn scatter_own<const W: usize>(
    objects: &mut Vec<Vec<u8>>,
    first: usize,
    t: IntType,
    index: [u64; W],
    from: [u64; W],
    mask: [bool; W],
    tally: &mut Tally,
) -> Option<u32>
    requires lanes { W ≤ 64 }
    requires first { first < 2 ^ 32 }
    requires fits { FitsLane 64 t }
    ensures { let old = map (λ v. v.items) objects.old.items in
        let own = window [] old first W in
        MatchOption result
        ((lowest (own_faults (size_of t) mask.entry index.entry own) ≡ None)
        × (map (λ v. v.items) objects.new.items ≡
        with_window old first (own_stored (size_of t) mask.entry index.entry from.entry own)))
        (λ k. (lowest (own_faults (size_of t) mask.entry index.entry own) ≡ Some k)
        × (map (λ v. v.items) objects.new.items ≡
        with_window old first (own_stored (size_of t) (take k mask.entry) (take k index.entry) (take k from.entry)
        own))) }
{
    match t {
        IntType::Int => scatter_each(objects, first, IntType::Int, index, from, mask, tally),
        IntType::Uint => scatter_each(objects, first, IntType::Uint, index, from, mask, tally),
        IntType::Uchar => scatter_each(objects, first, IntType::Uchar, index, from, mask, tally),
        IntType::Long => scatter_each(objects, first, IntType::Long, index, from, mask, tally),
        IntType::Ulong => scatter_each(objects, first, IntType::Ulong, index, from, mask, tally),
        _ => scatter_each(objects, first, t, index, from, mask, tally),
    }
}

/// Makes the object of an item zero, if the lane is active.
fn clear_item(objects: &mut Vec<Vec<u8>>, item: usize, on: bool)
    ensures { map (λ v. v.items) objects.new.items ≡ slice_set (map (λ v. v.items) objects.old.items) item
        (let bytes = slice_index_or (map (λ v. v.items) objects.old.items) item [] in
        if on then map (λ b. 0) bytes else bytes) }
{
    if on && item < objects.len() {
        zero_vec(&mut objects[item]);
    }
}

/// Every byte becomes zero.
fn zero_bytes(bytes: &mut [u8])
    ensures { bytes.new ≡ map (λ b. 0) bytes.old }
{
    for i in 0..bytes.len() {
        bytes[i] = 0;
    }
}

pub(crate) fn zero_vec(bytes: &mut Vec<u8>)
    ensures { bytes.new.items ≡ map (λ b. 0) bytes.old.items }
{
    zero_bytes(bytes);
}

/// The active items' objects become zero.
pub(crate) fn clear_own<const W: usize>(objects: &mut Vec<Vec<u8>>, first: usize, mask: [bool; W])
    requires lanes { W ≤ 64 }
    requires first { first < 2 ^ 32 }
    ensures { map (λ v. v.items) objects.new.items ≡ with_window (map (λ v. v.items) objects.old.items) first
        (own_cleared mask.entry (window [] (map (λ v. v.items) objects.old.items) first W)) }
{
    for i in 0..W {
        clear_item(objects, first + i, mask[i]);
    }
}

/// The narrow lane of element `at`; `None` exactly where the element is out of range.
#[inline(always)]
fn active_lane(bytes: &[u8], t: IntType, at: u64, tally: &mut Tally) -> Option<u32>
    requires { FitsLane 32 t }
    ensures { MatchOption result
        (is_fault (size_of t) (length bytes.now) true at ≡ true)
        (λ x. (is_fault (size_of t) (length bytes.now) true at ≡ false) × (x ≡ lane_from 32 t bytes.now true at)) }
{
    match whole32(bytes, t, Simd::<u64, 1>::splat(at), [true], tally) {
        Some(lanes) => Some(lanes[0]),
        None => None,
    }
}

/// The same of a lane that may be inactive, which gives 0.
#[inline(always)]
fn narrow_lane(bytes: &[u8], t: IntType, on: bool, at: u64, tally: &mut Tally) -> Option<u32>
    requires { FitsLane 32 t }
    ensures { MatchOption result
        (is_fault (size_of t) (length bytes.now) on at ≡ true)
        (λ x. (is_fault (size_of t) (length bytes.now) on at ≡ false) × (x ≡ lane_from 32 t bytes.now on at)) }
{
    if on {
        return active_lane(bytes, t, at, tally);
    }
    Some(0)
}

/// The narrow lane of the object of an item, as `narrow_lane`; a lane without an item has no bytes.
#[inline(always)]
fn narrow_item(
    objects: &[Vec<u8>],
    item: usize,
    t: IntType,
    on: bool,
    at: u64,
    tally: &mut Tally,
) -> Option<u32>
    requires { FitsLane 32 t }
    ensures { let bytes = slice_index_or (map (λ v. v.items) objects.now) item [] in
        MatchOption result
        (is_fault (size_of t) (length bytes) on at ≡ true)
        (λ x. (is_fault (size_of t) (length bytes) on at ≡ false) × (x ≡ lane_from 32 t bytes on at)) }
{
    match objects.get(item) {
        Some(bytes) => narrow_lane(bytes, t, on, at, tally),
        None => narrow_lane(&[], t, on, at, tally),
    }
}

/// The active lanes' elements as narrow lanes, each of the object of its item, or the lowest lane out of range, as
/// `gather_wide`.
#[inline(always)]
fn gather_narrow<const W: usize>(
    objects: &[Vec<u8>],
    first: usize,
    t: IntType,
    index: [u64; W],
    mask: [bool; W],
    tally: &mut Tally,
) -> Result<[u32; W], u32>
    requires lanes { W ≤ 64 }
    requires first { first < 2 ^ 32 }
    requires fits { FitsLane 32 t }
    ensures { let own = window [] (map (λ v. v.items) objects.now) first W in
        MatchResult result
        (λ v. (lowest (own_faults (size_of t) mask.entry index.entry own) ≡ None) ×
        (v ≡ own_loaded 32 t mask.entry index.entry own))
        (λ k. lowest (own_faults (size_of t) mask.entry index.entry own) ≡ Some k) }
{
    let mut lanes = [0u32; W];
    for i in 0..W {
        match narrow_item(objects, first + i, t, mask[i], index[i], tally) {
            Some(lane) => lanes[i] = lane,
            None => return Err(i as u32),
        }
    }
    Ok(lanes)
}

/// The same, where the types of 32 bits and bytes have loops of their own.
fn gather_low<const W: usize>(
    objects: &[Vec<u8>],
    first: usize,
    t: IntType,
    index: [u64; W],
    mask: [bool; W],
    tally: &mut Tally,
) -> Result<[u32; W], u32>
    requires lanes { W ≤ 64 }
    requires first { first < 2 ^ 32 }
    requires fits { FitsLane 32 t }
    ensures { let own = window [] (map (λ v. v.items) objects.now) first W in
        MatchResult result
        (λ v. (lowest (own_faults (size_of t) mask.entry index.entry own) ≡ None) ×
        (v ≡ own_loaded 32 t mask.entry index.entry own))
        (λ k. lowest (own_faults (size_of t) mask.entry index.entry own) ≡ Some k) }
{
    match t {
        IntType::Int => gather_narrow(objects, first, IntType::Int, index, mask, tally),
        IntType::Uint => gather_narrow(objects, first, IntType::Uint, index, mask, tally),
        IntType::Uchar => gather_narrow(objects, first, IntType::Uchar, index, mask, tally),
        _ => gather_narrow(objects, first, t, index, mask, tally),
    }
}

fn load_own_narrow<const W: usize>(
    r: &mut Registers<W>,
    objects: &[Vec<u8>],
    first: usize,
    access: Access,
    tally: &mut Tally,
) -> Option<u32>
    requires lanes { W ≤ 64 }
    requires first { first < 2 ^ 32 }
    requires fits { FitsLane 32 access.of }
    requires bank { access.value.bank ≡ Narrow }
    requires wide { access.index.bank ≡ Wide }
    requires to { access.value.number < length r.old.plain.narrow }
    requires index { access.index.number < length r.old.plain.wide }
    requires mask { access.mask.number < length r.old.plain.masks }
    ensures written { let own = window [] (map (λ v. v.items) objects.now) first W in
        MatchOption result
        ((lowest (own_faults (size_of access.of) (mask_of r.old.plain access.mask) (lanes_of r.old.plain access.index)
        own) ≡ None) ×
        (r.new.plain ≡ written r.old.plain access.value access.mask (own_loaded (bits_in access.value.bank) access.of
        (mask_of r.old.plain access.mask) (lanes_of r.old.plain access.index) own)))
        (λ k. (lowest (own_faults (size_of access.of) (mask_of r.old.plain access.mask)
        (lanes_of r.old.plain access.index) own) ≡ Some k) × (r.new.plain ≡ r.old.plain)) }
    ensures room { r.new.room ≡ r.old.room }
{
    let active = r.masks[access.mask.number as usize];
    let places = r.wide[access.index.number as usize].to_array();
    match gather_low(objects, first, access.of, places, active, tally) {
        Ok(new) => {
            put32(
                &mut r.narrow[access.value.number as usize],
                active,
                Simd::from_array(new),
            );
            None
        }
        Err(lane) => Some(lane),
    }
}

fn load_own_wide<const W: usize>(
    r: &mut Registers<W>,
    objects: &[Vec<u8>],
    first: usize,
    access: Access,
    tally: &mut Tally,
) -> Option<u32>
    requires lanes { W ≤ 64 }
    requires first { first < 2 ^ 32 }
    requires fits { FitsLane 64 access.of }
    requires bank { access.value.bank ≡ Wide }
    requires wide { access.index.bank ≡ Wide }
    requires to { access.value.number < length r.old.plain.wide }
    requires index { access.index.number < length r.old.plain.wide }
    requires mask { access.mask.number < length r.old.plain.masks }
    ensures written { let own = window [] (map (λ v. v.items) objects.now) first W in
        MatchOption result
        ((lowest (own_faults (size_of access.of) (mask_of r.old.plain access.mask) (lanes_of r.old.plain access.index)
        own) ≡ None) ×
        (r.new.plain ≡ written r.old.plain access.value access.mask (own_loaded (bits_in access.value.bank) access.of
        (mask_of r.old.plain access.mask) (lanes_of r.old.plain access.index) own)))
        (λ k. (lowest (own_faults (size_of access.of) (mask_of r.old.plain access.mask)
        (lanes_of r.old.plain access.index) own) ≡ Some k) × (r.new.plain ≡ r.old.plain)) }
    ensures room { r.new.room ≡ r.old.room }
{
    let active = r.masks[access.mask.number as usize];
    let places = r.wide[access.index.number as usize].to_array();
    match gather_own(objects, first, access.of, places, active, tally) {
        Ok(new) => {
            put64(
                &mut r.wide[access.value.number as usize],
                active,
                Simd::from_array(new),
            );
            None
        }
        Err(lane) => Some(lane),
    }
}

/// Loads the active lanes, each from the object of its item; or answers the lowest active lane that
/// is out of range.
#[inline(never)]
pub(crate) fn load_own<const W: usize>(
    r: &mut Registers<W>,
    objects: &[Vec<u8>],
    first: usize,
    access: Access,
    tally: &mut Tally,
) -> Option<u32>
    requires lanes { W ≤ 64 }
    requires first { first < 2 ^ 32 }
    requires fits { FitsBank access.of access.value.bank }
    requires scalar { access.value.bank ≢ Scalar }
    requires wide { access.index.bank ≡ Wide }
    requires to { IsIn r.old.plain access.value }
    requires index { access.index.number < length r.old.plain.wide }
    requires mask { access.mask.number < length r.old.plain.masks }
    ensures written { let own = window [] (map (λ v. v.items) objects.now) first W in
        MatchOption result
        ((lowest (own_faults (size_of access.of) (mask_of r.old.plain access.mask) (lanes_of r.old.plain access.index)
        own) ≡ None) ×
        (r.new.plain ≡ written r.old.plain access.value access.mask (own_loaded (bits_in access.value.bank) access.of
        (mask_of r.old.plain access.mask) (lanes_of r.old.plain access.index) own)))
        (λ k. (lowest (own_faults (size_of access.of) (mask_of r.old.plain access.mask)
        (lanes_of r.old.plain access.index) own) ≡ Some k) × (r.new.plain ≡ r.old.plain)) }
    ensures room { r.new.room ≡ r.old.room }
{
    match access.value.bank {
        Bank::Narrow => load_own_narrow(r, objects, first, access, tally),
        Bank::Wide => load_own_wide(r, objects, first, access, tally),
        Bank::Scalar | Bank::Mask => None,
    }
}

/// Stores the active lanes of a register, as `scatter_own`.
fn store_objects<const W: usize>(
    r: &Registers<W>,
    objects: &mut Vec<Vec<u8>>,
    first: usize,
    access: Access,
    tally: &mut Tally,
) -> Option<u32>
    requires lanes { W ≤ 64 }
    requires first { first < 2 ^ 32 }
    requires fits { FitsBank access.of access.value.bank }
    requires scalar { access.value.bank ≢ Scalar }
    requires bank { access.value.bank ≢ Mask }
    requires wide { access.index.bank ≡ Wide }
    requires from { IsIn r.now.plain access.value }
    requires index { access.index.number < length r.now.plain.wide }
    requires mask { access.mask.number < length r.now.plain.masks }
    ensures { let old = map (λ v. v.items) objects.old.items in
        let own = window [] old first W in
        MatchOption result
        ((lowest (own_faults (size_of access.of) (mask_of r.now.plain access.mask) (lanes_of r.now.plain access.index)
        own) ≡ None)
        × (map (λ v. v.items) objects.new.items ≡
        with_window old first (own_stored (size_of access.of) (mask_of r.now.plain access.mask)
        (lanes_of r.now.plain access.index) (stored_lanes access.of (lanes_of r.now.plain access.value)) own)))
        (λ k. (lowest (own_faults (size_of access.of) (mask_of r.now.plain access.mask)
        (lanes_of r.now.plain access.index) own) ≡ Some k)
        × (map (λ v. v.items) objects.new.items ≡
        with_window old first (own_stored (size_of access.of) (take k (mask_of r.now.plain access.mask))
        (take k (lanes_of r.now.plain access.index))
        (take k (stored_lanes access.of (lanes_of r.now.plain access.value))) own))) }
{
    let lanes = stored64(access.of, lanes_for_column(r, access.value)).to_array();
    let places = r.wide[access.index.number as usize].to_array();
    scatter_own(
        objects,
        first,
        access.of,
        places,
        lanes,
        r.masks[access.mask.number as usize],
        tally,
    )
}

/// Stores into one of the private arrays.
#[inline(never)]
pub(crate) fn store_own<const W: usize>(
    r: &Registers<W>,
    privates: &mut Vec<Vec<Vec<u8>>>,
    array: usize,
    first: usize,
    access: Access,
    tally: &mut Tally,
) -> Option<u32>
    requires lanes { W ≤ 64 }
    requires array { array < length privates.old.items }
    requires first { first < 2 ^ 32 }
    requires fits { FitsBank access.of access.value.bank }
    requires scalar { access.value.bank ≢ Scalar }
    requires bank { access.value.bank ≢ Mask }
    requires wide { access.index.bank ≡ Wide }
    requires from { IsIn r.now.plain access.value }
    requires index { access.index.number < length r.now.plain.wide }
    requires mask { access.mask.number < length r.now.plain.masks }
    ensures { let arrays = map (λ a. map (λ v. v.items) a.items) privates.old.items in
        let old = slice_index_or arrays array [] in
        let own = window [] old first W in
        MatchOption result
        ((lowest (own_faults (size_of access.of) (mask_of r.now.plain access.mask) (lanes_of r.now.plain access.index)
        own) ≡ None)
        × (map (λ a. map (λ v. v.items) a.items) privates.new.items ≡
        slice_set arrays array (with_window old first (own_stored (size_of access.of)
        (mask_of r.now.plain access.mask)
        (lanes_of r.now.plain access.index) (stored_lanes access.of (lanes_of r.now.plain access.value)) own))))
        (λ k. (lowest (own_faults (size_of access.of) (mask_of r.now.plain access.mask)
        (lanes_of r.now.plain access.index) own) ≡ Some k)
        × (map (λ a. map (λ v. v.items) a.items) privates.new.items ≡
        slice_set arrays array (with_window old first (own_stored (size_of access.of)
        (take k (mask_of r.now.plain access.mask))
        (take k (lanes_of r.now.plain access.index))
        (take k (stored_lanes access.of (lanes_of r.now.plain access.value))) own)))) }
{
    store_objects(r, &mut privates[array], first, access, tally)
}

/// Clears the active items' objects of one of the private arrays.
fn clear_in<const W: usize>(
    privates: &mut Vec<Vec<Vec<u8>>>,
    array: usize,
    first: usize,
    mask: [bool; W],
)
    requires lanes { W ≤ 64 }
    requires array { array < length privates.old.items }
    requires first { first < 2 ^ 32 }
    ensures { let arrays = map (λ a. map (λ v. v.items) a.items) privates.old.items in
        let old = slice_index_or arrays array [] in
        map (λ a. map (λ v. v.items) a.items) privates.new.items ≡
        slice_set arrays array (with_window old first (own_cleared mask.entry (window [] old first W))) }
{
    clear_own(&mut privates[array], first, mask);
}

/// The active items' private array becomes zero.
#[inline(never)]
pub(crate) fn clear_step<const W: usize>(
    r: &Registers<W>,
    group: &mut Group,
    array: u32,
    mask: Reg,
    first: usize,
)
    requires lanes { W ≤ 64 }
    requires array { array < length group.old.kept.privates }
    requires first { first < 2 ^ 32 }
    requires mask { mask.number < length r.now.plain.masks }
    ensures { group.new ≡ record group.old {
      kept = objects_stored group.old.kept first array
          (own_cleared (mask_of r.now.plain mask) (window [] (slice_index_or group.old.kept.privates array []) first
          W));
    } }
{
    clear_in(
        &mut group.privates,
        array as usize,
        first,
        r.masks[mask.number as usize],
    );
}
