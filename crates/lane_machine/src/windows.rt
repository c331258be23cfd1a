//! A chunk's part of a list that has an entry for each item of the group.
ghost use Rattle.std.specs.Prelude.{◌≡◌, ◌<◌, ◌≤◌, ◌-◌, ◌^◌, false, min};
ghost use Rattle.std.specs.Simd.Lanes.{sel_l};
ghost use Rattle.lane_code.specs.Groups.{window, with_window};

use std::simd::prelude::*;

/// How many of the chunk's items a list has entries for.
fn entries_in<const W: usize>(len: usize, first: usize) -> usize
    ensures { result ≡ min W (len - first) }
{
    if first < len { (len - first).min(W) } else { 0 }
}

/// The entries of the chunk's items, and 0 for lanes without an item.
#[inline(always)]
pub(crate) fn numbers_at<const W: usize>(list: &[u64], first: usize) -> Simd<u64, W>
    requires lanes { W ≤ 64 }
    requires first { first < 2 ^ 32 }
    ensures { result ≡ window 0 list.now first W }
{
    if first + W <= list.len() {
        let mut lanes = [0u64; W];
        for k in 0..W {
            lanes[k] = list[first + k];
        }
        return Simd::from_array(lanes);
    }
    Simd::from_array(numbers_within(list, first))
}

/// The same for a chunk that the list does not fill.
#[inline(never)]
fn numbers_within<const W: usize>(list: &[u64], first: usize) -> [u64; W]
    requires lanes { W ≤ 64 }
    requires first { first < 2 ^ 32 }
    ensures { result ≡ window 0 list.now first W }
{
    let mut lanes = [0u64; W];
    for k in 0..entries_in::<W>(list.len(), first) {
        lanes[k] = list[first + k];
    }
    lanes
}

/// The same of truth values, with `false` for lanes without an item.
pub(crate) fn truths_at<const W: usize>(list: &[bool], first: usize) -> [bool; W]
    requires lanes { W ≤ 64 }
    requires first { first < 2 ^ 32 }
    ensures { result ≡ window false list.now first W }
{
    let mut lanes = [false; W];
    if first + W <= list.len() {
        for k in 0..W {
            lanes[k] = list[first + k];
        }
        return lanes;
    }
    for k in 0..entries_in::<W>(list.len(), first) {
        lanes[k] = list[first + k];
    }
    lanes
}

/// Writes the entries of the chunk's items, as far as the list reaches.
pub(crate) fn put_numbers<const W: usize>(list: &mut [u64], first: usize, lanes: [u64; W])
    requires lanes { W ≤ 64 }
    requires first { first < 2 ^ 32 }
    ensures { list.new ≡ with_window list.old first lanes.entry }
{
    if first + W <= list.len() {
        for k in 0..W {
            list[first + k] = lanes[k];
        }
        return;
    }
    for k in 0..entries_in::<W>(list.len(), first) {
        list[first + k] = lanes[k];
    }
}

pub(crate) fn put_truths<const W: usize>(list: &mut [bool], first: usize, lanes: [bool; W])
    requires lanes { W ≤ 64 }
    requires first { first < 2 ^ 32 }
    ensures { list.new ≡ with_window list.old first lanes.entry }
{
    if first + W <= list.len() {
        for k in 0..W {
            list[first + k] = lanes[k];
        }
        return;
    }
    for k in 0..entries_in::<W>(list.len(), first) {
        list[first + k] = lanes[k];
    }
}

/// Writes the entries of the chunk's items whose lanes are active, as far as the list reaches.
pub(crate) fn put_active<const W: usize>(
    list: &mut [u64],
    first: usize,
    mask: [bool; W],
    lanes: [u64; W],
)
    requires lanes { W ≤ 64 }
    requires first { first < 2 ^ 32 }
    ensures { list.new ≡ with_window list.old first (sel_l mask.entry lanes.entry (window 0 list.old first W)) }
{
    for k in 0..entries_in::<W>(list.len(), first) {
        if mask[k] {
            list[first + k] = lanes[k];
        }
    }
}
