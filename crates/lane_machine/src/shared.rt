//! Loads and stores at which all lanes share one object.
ghost use Rattle.std.specs.Prelude.{◌≡◌, ◌≢◌, ◌<◌, ◌≤◌, None, Some, [], length, take, map};
ghost use Rattle.std.specs.Prelude.{slice_index_or, slice_set, IfSome, MatchOption, MatchResult};
ghost use Rattle.std.specs.Bool.{OnTrue};
ghost use Rattle.wg_num.specs.Bytes.{size_of};
ghost use Rattle.lane_values.specs.Access.{faults, gathered, stored_lanes, scattered};
ghost use Rattle.lane_values.specs.Lanes.{FitsLane};
ghost use Rattle.lane_code.specs.Registers.{written, lanes_of, mask_of, bits_in, lowest};
ghost use Rattle.lane_code.specs.declared.step.Bank.TheVariants.{Narrow, Wide, Scalar};
ghost use Rattle.lane_machine.specs.State.{IsIn, FitsBank};

use crate::operands::Access;
use crate::registers::Registers;
use lane_code::{Bank, Reg};
use lane_kernels::{Tally, gather32, gather64, put32, put64, scatter32, scatter64, whole32};
use std::simd::prelude::*;
use wg_num::IntType;

fn gather_narrow<const W: usize>(
    bytes: &[u8],
    t: IntType,
    index: Simd<u64, W>,
    mask: [bool; W],
    tally: &mut Tally,
) -> Result<[u32; W], u32>
    requires lanes { W ≤ 64 }
    requires fits { FitsLane 32 t }
    ensures { MatchResult result
        (λ v. (lowest (faults (size_of t) (length bytes.now) mask.entry index.entry) ≡ None) ×
        (v ≡ gathered 32 t bytes.now mask.entry index.entry))
        (λ k. lowest (faults (size_of t) (length bytes.now) mask.entry index.entry) ≡ Some k) }
{
    gather32(bytes, t, index, mask, tally)
}

/// What `gather_narrow` answers where every lane is active and in range.
#[inline(always)]
fn whole_narrow<const W: usize>(
    bytes: &[u8],
    t: IntType,
    index: Simd<u64, W>,
    mask: [bool; W],
    tally: &mut Tally,
) -> Option<[u32; W]>
    requires lanes { W ≤ 64 }
    requires fits { FitsLane 32 t }
    ensures { IfSome result (λ v. (lowest (faults (size_of t) (length bytes.now) mask.entry index.entry) ≡ None) ×
        (v ≡ gathered 32 t bytes.now mask.entry index.entry)) }
{
    whole32(bytes, t, index, mask, tally)
}

fn gather_wide<const W: usize>(
    bytes: &[u8],
    t: IntType,
    index: Simd<u64, W>,
    mask: [bool; W],
    tally: &mut Tally,
) -> Result<[u64; W], u32>
    requires lanes { W ≤ 64 }
    requires fits { FitsLane 64 t }
    ensures { MatchResult result
        (λ v. (lowest (faults (size_of t) (length bytes.now) mask.entry index.entry) ≡ None) ×
        (v ≡ gathered 64 t bytes.now mask.entry index.entry))
        (λ k. lowest (faults (size_of t) (length bytes.now) mask.entry index.entry) ≡ Some k) }
{
    gather64(bytes, t, index, mask, tally)
}

/// Whether the type has 32 bits.
#[inline(always)]
fn is_word(t: IntType) -> bool
    ensures { OnTrue result (size_of t ≡ 4) }
{
    matches!(t, IntType::Int | IntType::Uint)
}

/// Loads narrow lanes of any type, of which some may be inactive or out of range. It is out of line, answers no vector
/// and takes no struct, so that a load of 32 bits a lane whose lanes are all active and in range keeps in registers what
/// it loads.
#[inline(never)]
fn load_some<const W: usize>(
    r: &mut Registers<W>,
    bytes: &[u8],
    of: IntType,
    index: Reg,
    to: Reg,
    mask: Reg,
    tally: &mut Tally,
) -> Option<u32>
    requires lanes { W ≤ 64 }
    requires fits { FitsLane 32 of }
    requires bank { to.bank ≡ Narrow }
    requires wide { index.bank ≡ Wide }
    requires to { to.number < length r.old.plain.narrow }
    requires index { index.number < length r.old.plain.wide }
    requires mask { mask.number < length r.old.plain.masks }
    ensures written { MatchOption result
        ((lowest (faults (size_of of) (length bytes.now) (mask_of r.old.plain mask) (lanes_of r.old.plain index)) ≡
        None) × (r.new.plain ≡ written r.old.plain to mask (gathered (bits_in to.bank) of bytes.now
        (mask_of r.old.plain mask) (lanes_of r.old.plain index))))
        (λ k. (lowest (faults (size_of of) (length bytes.now) (mask_of r.old.plain mask) (lanes_of r.old.plain index)) ≡
        Some k) × (r.new.plain ≡ r.old.plain)) }
    ensures room { r.new.room ≡ r.old.room }
{
    let active = r.masks[mask.number as usize];
    if !is_word(of) {
        if let Some(new) = whole_narrow(bytes, of, r.wide[index.number as usize], active, tally) {
            put32(
                &mut r.narrow[to.number as usize],
                active,
                Simd::from_array(new),
            );
            return None;
        }
    }
    match gather_narrow(bytes, of, r.wide[index.number as usize], active, tally) {
        Ok(new) => {
            put32(
                &mut r.narrow[to.number as usize],
                active,
                Simd::from_array(new),
            );
            None
        }
        Err(lane) => Some(lane),
    }
}

#[inline(always)]
fn load_narrow<const W: usize>(
    r: &mut Registers<W>,
    bytes: &[u8],
    access: Access,
    tally: &mut Tally,
) -> Option<u32>
    requires lanes { W ≤ 64 }
    requires fits { FitsLane 32 access.of }
    requires bank { access.value.bank ≡ Narrow }
    requires wide { access.index.bank ≡ Wide }
    requires to { access.value.number < length r.old.plain.narrow }
    requires index { access.index.number < length r.old.plain.wide }
    requires mask { access.mask.number < length r.old.plain.masks }
    ensures written { MatchOption result
        ((lowest (faults (size_of access.of) (length bytes.now) (mask_of r.old.plain access.mask)
        (lanes_of r.old.plain access.index)) ≡ None) × (r.new.plain ≡ written r.old.plain access.value access.mask
        (gathered (bits_in access.value.bank) access.of bytes.now (mask_of r.old.plain access.mask)
        (lanes_of r.old.plain access.index))))
        (λ k. (lowest (faults (size_of access.of) (length bytes.now) (mask_of r.old.plain access.mask)
        (lanes_of r.old.plain access.index))
        ≡ Some k) × (r.new.plain ≡ r.old.plain)) }
    ensures room { r.new.room ≡ r.old.room }
{
    if is_word(access.of) {
        let active = r.masks[access.mask.number as usize];
        let index = r.wide[access.index.number as usize];
        if let Some(new) = whole_narrow(bytes, access.of, index, active, tally) {
            put32(
                &mut r.narrow[access.value.number as usize],
                active,
                Simd::from_array(new),
            );
            return None;
        }
    }
    load_some(
        r,
        bytes,
        access.of,
        access.index,
        access.value,
        access.mask,
        tally,
    )
}

fn load_wide<const W: usize>(
    r: &mut Registers<W>,
    bytes: &[u8],
    access: Access,
    tally: &mut Tally,
) -> Option<u32>
    requires lanes { W ≤ 64 }
    requires fits { FitsLane 64 access.of }
    requires bank { access.value.bank ≡ Wide }
    requires wide { access.index.bank ≡ Wide }
    requires to { access.value.number < length r.old.plain.wide }
    requires index { access.index.number < length r.old.plain.wide }
    requires mask { access.mask.number < length r.old.plain.masks }
    ensures written { MatchOption result
        ((lowest (faults (size_of access.of) (length bytes.now) (mask_of r.old.plain access.mask)
        (lanes_of r.old.plain access.index)) ≡ None) × (r.new.plain ≡ written r.old.plain access.value access.mask
        (gathered (bits_in access.value.bank) access.of bytes.now (mask_of r.old.plain access.mask)
        (lanes_of r.old.plain access.index))))
        (λ k. (lowest (faults (size_of access.of) (length bytes.now) (mask_of r.old.plain access.mask)
        (lanes_of r.old.plain access.index))
        ≡ Some k) × (r.new.plain ≡ r.old.plain)) }
    ensures room { r.new.room ≡ r.old.room }
{
    let active = r.masks[access.mask.number as usize];
    match gather_wide(
        bytes,
        access.of,
        r.wide[access.index.number as usize],
        active,
        tally,
    ) {
        Ok(new) => {
            put64(
                &mut r.wide[access.value.number as usize],
                active,
                Simd::from_array(new),
            );
            None
        }
        Err(lane) => Some(lane),
    }
}

/// Loads the active lanes; or answers the lowest active lane that is out of range.
#[inline(always)]
pub(crate) fn load_shared<const W: usize>(
    r: &mut Registers<W>,
    bytes: &[u8],
    access: Access,
    tally: &mut Tally,
) -> Option<u32>
    requires lanes { W ≤ 64 }
    requires fits { FitsBank access.of access.value.bank }
    requires scalar { access.value.bank ≢ Scalar }
    requires wide { access.index.bank ≡ Wide }
    requires to { IsIn r.old.plain access.value }
    requires index { access.index.number < length r.old.plain.wide }
    requires mask { access.mask.number < length r.old.plain.masks }
    ensures written { MatchOption result
        ((lowest (faults (size_of access.of) (length bytes.now) (mask_of r.old.plain access.mask)
        (lanes_of r.old.plain access.index)) ≡ None) × (r.new.plain ≡ written r.old.plain access.value access.mask
        (gathered (bits_in access.value.bank) access.of bytes.now (mask_of r.old.plain access.mask)
        (lanes_of r.old.plain access.index))))
        (λ k. (lowest (faults (size_of access.of) (length bytes.now) (mask_of r.old.plain access.mask)
        (lanes_of r.old.plain access.index))
        ≡ Some k) × (r.new.plain ≡ r.old.plain)) }
    ensures room { r.new.room ≡ r.old.room }
{
    match access.value.bank {
        Bank::Narrow => load_narrow(r, bytes, access, tally),
        Bank::Wide => load_wide(r, bytes, access, tally),
        Bank::Scalar | Bank::Mask => None,
    }
}

fn scatter_narrow<const W: usize>(
    bytes: &mut [u8],
    t: IntType,
    index: Simd<u64, W>,
    from: Simd<u32, W>,
    mask: [bool; W],
    tally: &mut Tally,
) -> Option<u32>
    requires lanes { W ≤ 64 }
    requires fits { FitsLane 32 t }
    ensures { MatchOption result
        ((lowest (faults (size_of t) (length bytes.old) mask.entry index.entry) ≡ None) ×
        (bytes.new ≡ scattered (size_of t) bytes.old mask.entry index.entry from.entry))
        (λ k. (lowest (faults (size_of t) (length bytes.old) mask.entry index.entry) ≡ Some k) ×
        (bytes.new ≡ scattered (size_of t) bytes.old (take k mask.entry) (take k index.entry)
        (take k from.entry))) }
{
    match scatter32(bytes, t, index, from, mask, tally) {
        Ok(()) => None,
        Err(lane) => Some(lane),
    }
}

fn scatter_wide<const W: usize>(
    bytes: &mut [u8],
    t: IntType,
    index: Simd<u64, W>,
    from: Simd<u64, W>,
    mask: [bool; W],
    tally: &mut Tally,
) -> Option<u32>
    requires lanes { W ≤ 64 }
    requires fits { FitsLane 64 t }
    ensures { MatchOption result
        ((lowest (faults (size_of t) (length bytes.old) mask.entry index.entry) ≡ None) ×
        (bytes.new ≡ scattered (size_of t) bytes.old mask.entry index.entry from.entry))
        (λ k. (lowest (faults (size_of t) (length bytes.old) mask.entry index.entry) ≡ Some k) ×
        (bytes.new ≡ scattered (size_of t) bytes.old (take k mask.entry) (take k index.entry)
        (take k from.entry))) }
{
    match scatter64(bytes, t, index, from, mask, tally) {
        Ok(()) => None,
        Err(lane) => Some(lane),
    }
}

/// The lanes that a store of the type writes: of a bool 0 or 1, and else the lanes as they are.
fn stored32<const W: usize>(t: IntType, lanes: Simd<u32, W>) -> Simd<u32, W>
    ensures { result ≡ stored_lanes t lanes.entry }
{
    if let IntType::Bool = t {
        return lanes
            .simd_eq(Simd::splat(0))
            .select(Simd::splat(0), Simd::splat(1));
    }
    lanes
}

/// The same of wide lanes.
pub(crate) fn stored64<const W: usize>(t: IntType, lanes: Simd<u64, W>) -> Simd<u64, W>
    ensures { result ≡ stored_lanes t lanes.entry }
{
    if let IntType::Bool = t {
        return lanes
            .simd_eq(Simd::splat(0))
            .select(Simd::splat(0), Simd::splat(1));
    }
    lanes
}

pub(crate) fn store_slice<const W: usize>(
    r: &Registers<W>,
    bytes: &mut [u8],
    access: Access,
    tally: &mut Tally,
) -> Option<u32>
    requires lanes { W ≤ 64 }
    requires fits { FitsBank access.of access.value.bank }
    requires scalar { access.value.bank ≢ Scalar }
    requires wide { access.index.bank ≡ Wide }
    requires from { IsIn r.now.plain access.value }
    requires index { access.index.number < length r.now.plain.wide }
    requires mask { access.mask.number < length r.now.plain.masks }
    ensures { MatchOption result
        ((lowest (faults (size_of access.of) (length bytes.old) (mask_of r.now.plain access.mask)
        (lanes_of r.now.plain access.index)) ≡
        None) × (bytes.new ≡ scattered (size_of access.of) bytes.old (mask_of r.now.plain access.mask)
        (lanes_of r.now.plain access.index) (stored_lanes access.of (lanes_of r.now.plain access.value))))
        (λ k. (lowest (faults (size_of access.of) (length bytes.old) (mask_of r.now.plain access.mask)
        (lanes_of r.now.plain access.index))
        ≡ Some k)
        × (bytes.new ≡ scattered (size_of access.of) bytes.old (take k (mask_of r.now.plain access.mask))
        (take k (lanes_of r.now.plain access.index))
        (take k (stored_lanes access.of (lanes_of r.now.plain access.value))))) }
{
    let places = r.wide[access.index.number as usize];
    let active = r.masks[access.mask.number as usize];
    match access.value.bank {
        Bank::Narrow => {
            let lanes = stored32(access.of, r.narrow[access.value.number as usize]);
            scatter_narrow(bytes, access.of, places, lanes, active, tally)
        }
        Bank::Wide => {
            let lanes = stored64(access.of, r.wide[access.value.number as usize]);
            scatter_wide(bytes, access.of, places, lanes, active, tally)
        }
        Bank::Scalar | Bank::Mask => None,
    }
}

fn store_shared<const W: usize>(
    r: &Registers<W>,
    bytes: &mut Vec<u8>,
    access: Access,
    tally: &mut Tally,
) -> Option<u32>
    requires lanes { W ≤ 64 }
    requires fits { FitsBank access.of access.value.bank }
    requires scalar { access.value.bank ≢ Scalar }
    requires wide { access.index.bank ≡ Wide }
    requires from { IsIn r.now.plain access.value }
    requires index { access.index.number < length r.now.plain.wide }
    requires mask { access.mask.number < length r.now.plain.masks }
    ensures { MatchOption result
        ((lowest (faults (size_of access.of) (length bytes.old.items) (mask_of r.now.plain access.mask)
        (lanes_of r.now.plain access.index))
        ≡ None) × (bytes.new.items ≡ scattered (size_of access.of) bytes.old.items (mask_of r.now.plain access.mask)
        (lanes_of r.now.plain access.index) (stored_lanes access.of (lanes_of r.now.plain access.value))))
        (λ k. (lowest (faults (size_of access.of) (length bytes.old.items) (mask_of r.now.plain access.mask)
        (lanes_of r.now.plain access.index)) ≡ Some k)
        × (bytes.new.items ≡ scattered (size_of access.of) bytes.old.items (take k (mask_of r.now.plain access.mask))
        (take k (lanes_of r.now.plain access.index))
        (take k (stored_lanes access.of (lanes_of r.now.plain access.value))))) }
{
    store_slice(r, bytes, access, tally)
}

/// Stores the active lanes into one of the objects; or only those below the lowest active lane that
/// is out of range, which it answers.
fn store_one<const W: usize>(
    r: &Registers<W>,
    objects: &mut Vec<Vec<u8>>,
    object: usize,
    access: Access,
    tally: &mut Tally,
) -> Option<u32>
    requires lanes { W ≤ 64 }
    requires object { object < length objects.old.items }
    requires fits { FitsBank access.of access.value.bank }
    requires scalar { access.value.bank ≢ Scalar }
    requires wide { access.index.bank ≡ Wide }
    requires from { IsIn r.now.plain access.value }
    requires index { access.index.number < length r.now.plain.wide }
    requires mask { access.mask.number < length r.now.plain.masks }
    ensures { let old = map (λ v. v.items) objects.old.items in
        let bytes = slice_index_or old object [] in
        MatchOption result
        ((lowest (faults (size_of access.of) (length bytes) (mask_of r.now.plain access.mask)
        (lanes_of r.now.plain access.index)) ≡ None)
        × (map (λ v. v.items) objects.new.items ≡
        slice_set old object (scattered (size_of access.of) bytes (mask_of r.now.plain access.mask)
        (lanes_of r.now.plain access.index) (stored_lanes access.of (lanes_of r.now.plain access.value)))))
        (λ k. (lowest (faults (size_of access.of) (length bytes) (mask_of r.now.plain access.mask)
        (lanes_of r.now.plain access.index)) ≡ Some k)
        × (map (λ v. v.items) objects.new.items ≡
        slice_set old object (scattered (size_of access.of) bytes (take k (mask_of r.now.plain access.mask))
        (take k (lanes_of r.now.plain access.index))
        (take k (stored_lanes access.of (lanes_of r.now.plain access.value)))))) }
{
    store_shared(r, &mut objects[object], access, tally)
}

/// The same where there may be no such object, and so no element in range.
pub(crate) fn store_into<const W: usize>(
    r: &Registers<W>,
    objects: &mut Vec<Vec<u8>>,
    object: usize,
    access: Access,
    tally: &mut Tally,
) -> Option<u32>
    requires lanes { W ≤ 64 }
    requires fits { FitsBank access.of access.value.bank }
    requires scalar { access.value.bank ≢ Scalar }
    requires wide { access.index.bank ≡ Wide }
    requires from { IsIn r.now.plain access.value }
    requires index { access.index.number < length r.now.plain.wide }
    requires mask { access.mask.number < length r.now.plain.masks }
    ensures { let old = map (λ v. v.items) objects.old.items in
        let bytes = slice_index_or old object [] in
        MatchOption result
        ((lowest (faults (size_of access.of) (length bytes) (mask_of r.now.plain access.mask)
        (lanes_of r.now.plain access.index)) ≡ None)
        × (map (λ v. v.items) objects.new.items ≡
        slice_set old object (scattered (size_of access.of) bytes (mask_of r.now.plain access.mask)
        (lanes_of r.now.plain access.index) (stored_lanes access.of (lanes_of r.now.plain access.value)))))
        (λ k. (lowest (faults (size_of access.of) (length bytes) (mask_of r.now.plain access.mask)
        (lanes_of r.now.plain access.index)) ≡ Some k)
        × (map (λ v. v.items) objects.new.items ≡
        slice_set old object (scattered (size_of access.of) bytes (take k (mask_of r.now.plain access.mask))
        (take k (lanes_of r.now.plain access.index))
        (take k (stored_lanes access.of (lanes_of r.now.plain access.value)))))) }
{
    if object < objects.len() {
        return store_one(r, objects, object, access, tally);
    }
    let mut none = [0u8; 0];
    store_slice(r, &mut none, access, tally)
}
