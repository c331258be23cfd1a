//! The registers at the start of a code.
ghost use Rattle.std.specs.Prelude.{◌≡◌, ◌<◌, ◌≤◌, ◌^◌, ◌+◌, replicate, length, slice_index_or, [], ℕ};
ghost use Rattle.std.specs.Vec.{vec_capacity};
ghost use Rattle.lane_code.specs.Registers.{existing, start_registers};
ghost use Rattle.lane_machine.specs.Blanked.{AreAt};
ghost use Rattle.lane_machine.specs.Room.{HasRoom, IsNoLess};
ghost use Rattle.lane_tidy.specs.Clearing.{StartsAlike};

use crate::registers::Registers;
use lane_code::Counts;
use lane_kernels::truths_of;
use lane_tidy::clearing::Cleared;
use std::simd::prelude::*;

/// So many copies of a value in place of what the list has; there is room for them.
fn refill<T: Copy + Drop>(list: &mut Vec<T>, n: usize, x: T)
    requires { n ≤ vec_capacity list.old }
    ensures items { list.new.items ≡ replicate n x }
    ensures capacity { vec_capacity list.old ≤ vec_capacity list.new }
{
    list.clear();
    let _ = list.resize(n, x);
}

/// The same for a list that mostly has one entry or two, which are written without a call.
fn refill_few<T: Copy + Drop>(list: &mut Vec<T>, n: usize, x: T)
    requires { n ≤ vec_capacity list.old }
    ensures items { list.new.items ≡ replicate n x }
    ensures capacity { vec_capacity list.old ≤ vec_capacity list.new }
{
    list.clear();
    match n {
        0 => {}
        1 => list.push_reserved(x),
        2 => {
            list.push_reserved(x);
            list.push_reserved(x);
        }
        _ => {
            let _ = list.resize(n, x);
        }
    }
}

/// The lanes whose number is below the count.
fn lanes_below<const W: usize>(count: u8) -> [bool; W]
    requires { W ≤ 64 }
    ensures { result ≡ existing count W 0 }
{
    let mut places = [0u8; W];
    for i in 0..W {
        places[i] = i as u8;
    }
    let below = Simd::from_array(places).simd_lt(Simd::splat(count));
    truths_of(below.select(Simd::splat(1), Simd::splat(0)))
}

/// The lanes whose items exist.
fn existing_lanes<const W: usize>(size: usize, first: usize) -> [bool; W]
    requires lanes { W ≤ 64 }
    requires first { first < 2 ^ 32 }
    ensures { result ≡ existing size W first }
{
    if first + W <= size {
        return [true; W];
    }
    lanes_below(size.saturating_sub(first) as u8)
}

/// So many entries: those that the list has, as far as they go, and copies of a value behind them;
/// there is room for them.
fn resize_to<T: Copy + Drop>(list: &mut Vec<T>, n: usize, x: T)
    requires { n ≤ vec_capacity list.old }
    ensures long { length list.new.items ≡ n }
    ensures capacity { vec_capacity list.old ≤ vec_capacity list.new }
{
    let _ = list.resize(n, x);
}

/// The value at each of these places that the list has.
fn put_at<T: Copy + Drop>(list: &mut Vec<T>, places: &[u32], x: T)
    ensures long { length list.new.items ≡ length list.old.items }
    ensures put { AreAt places.now list.new.items x }
    ensures capacity { vec_capacity list.new ≡ vec_capacity list.old }
{
    for place in places {
        let at = *place as usize;
        if at < list.len() {
            list[at] = x;
        }
    }
}

/// A vector has as many lanes as its type says.
fn lanes_in32<const W: usize>(lanes: Simd<u32, W>)
    ensures { length lanes.entry ≡ W }
{}

fn lanes_in64<const W: usize>(lanes: Simd<u64, W>)
    ensures { length lanes.entry ≡ W }
{}

/// So has each of a list. Nothing is done here.
fn all_lanes32<const W: usize>(list: &Vec<Simd<u32, W>>)
    ensures { (n : ℕ) → n < length list.now.items → length (slice_index_or list.now.items n []) ≡ W }
{
    for i in 0..list.len() {
        lanes_in32(list[i]);
    }
}

fn all_lanes64<const W: usize>(list: &Vec<Simd<u64, W>>)
    ensures { (n : ℕ) → n < length list.now.items → length (slice_index_or list.now.items n []) ≡ W }
{
    for i in 0..list.len() {
        lanes_in64(list[i]);
    }
}

impl<const W: usize> Registers<W> {
    /// As many registers as a code counts, on a chunk all of whose lanes exist: masks, scalars and
    /// the listed registers are as at the start of the code, and the others hold anything.
    pub(crate) fn restart_some(
        &mut self,
        counts: Counts,
        cleared: &Cleared,
        size: usize,
        first: usize,
    )
        requires lanes { W ≤ 64 }
        requires first { first < 2 ^ 32 }
        requires full { first + W ≤ size }
        requires mask { 0 < counts.masks }
        requires room { HasRoom counts self.old.room }
        ensures alike { StartsAlike cleared.now.narrow.items cleared.now.wide.items self.new.plain
            (start_registers counts.narrow counts.wide counts.masks counts.scalars W size first) }
        ensures room { IsNoLess self.old.room self.new.room }
    {
        resize_to(&mut self.narrow, counts.narrow as usize, Simd::splat(0));
        put_at(&mut self.narrow, &cleared.narrow, Simd::splat(0));
        all_lanes32(&self.narrow);
        resize_to(&mut self.wide, counts.wide as usize, Simd::splat(0));
        put_at(&mut self.wide, &cleared.wide, Simd::splat(0));
        all_lanes64(&self.wide);
        refill_few(&mut self.masks, counts.masks as usize, [false; W]);
        refill_few(&mut self.scalars, counts.scalars as usize, 0);
        self.masks[0] = existing_lanes(size, first);
    }

    /// As many registers as a code counts, all zero but mask 0, which is the existing lanes.
    pub(crate) fn restart(&mut self, counts: Counts, size: usize, first: usize)
        requires lanes { W ≤ 64 }
        requires first { first < 2 ^ 32 }
        requires mask { 0 < counts.masks }
        requires room { HasRoom counts self.old.room }
        ensures written { self.new.plain ≡ start_registers counts.narrow counts.wide counts.masks counts.scalars W
            size first }
        ensures room { IsNoLess self.old.room self.new.room }
    {
        refill(&mut self.narrow, counts.narrow as usize, Simd::splat(0));
        refill(&mut self.wide, counts.wide as usize, Simd::splat(0));
        refill_few(&mut self.masks, counts.masks as usize, [false; W]);
        refill_few(&mut self.scalars, counts.scalars as usize, 0);
        self.masks[0] = existing_lanes(size, first);
    }

    /// The registers at the start of a code, where what needs no clearing may hold anything: on a
    /// chunk that lacks lanes all are cleared.
    pub(crate) fn restart_for(
        &mut self,
        counts: Counts,
        cleared: &Cleared,
        size: usize,
        first: usize,
    )
        requires lanes { W ≤ 64 }
        requires first { first < 2 ^ 32 }
        requires mask { 0 < counts.masks }
        requires room { HasRoom counts self.old.room }
        ensures full { first + W ≤ size → StartsAlike cleared.now.narrow.items cleared.now.wide.items self.new.plain
            (start_registers counts.narrow counts.wide counts.masks counts.scalars W size first) }
        ensures part { size < first + W → self.new.plain ≡
            start_registers counts.narrow counts.wide counts.masks counts.scalars W size first }
        ensures room { IsNoLess self.old.room self.new.room }
    {
        if first + W <= size {
            self.restart_some(counts, cleared, size, first);
        } else {
            self.restart(counts, size, first);
        }
    }
}
