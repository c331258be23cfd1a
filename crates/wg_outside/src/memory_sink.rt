// A sink in memory.
ghost use Rattle.std.specs.Prelude.{◌≡◌, ◌≤◌, ◌+◌, ◌++◌, Some, IfOk, OnOk, OnErr};
ghost use Rattle.std.specs.Prelude.{vec_capacity, vec_len, length, Contains};
ghost use Rattle.std.specs.Io.KnownBytes.{Appends};
ghost use Rattle.wg_outside.specs.Bytes.{AppendsPrefix};
ghost use Rattle.wg_outside.specs.Counts.{Rose, next_count};
ghost use Rattle.wg_outside.specs.MemorySink.{new_sink};

use crate::calls::Calls;
use crate::{Failed, Sink, raise};
use std::alloc::Global;
use std::marker::Model;
use wg_num::Memory;

// Bytes, with room reserved for more.
#[derive(Drop)]
struct Held {
    bytes: Vec<u8>,
    room: u64,
    ghost reserved: { vec_len bytes + room ≤ vec_capacity bytes },
}

impl Held {
    fn append(&mut self, bytes: &[u8])
        requires { length bytes.now ≤ self.old.room }
        ensures bytes { self.new.bytes.items ≡ self.old.bytes.items ++ bytes.now }
        ensures room { self.new.room + length bytes.now ≡ self.old.room }
    {
        self.room -= bytes.len() as u64;
        self.bytes.extend_from_slice(bytes).unwrap();
    }
}

/// Keeps in memory what is put, within the room that it reserved, and tells it. Its puts are
/// numbered from 0. A contract sees the bytes, the numbers of the calls that are to fail, the
/// number of the next call, how many bytes there is room for, and the count of faults.
#[derive(Drop)]
pub struct MemorySink {
    held: Held,
    calls: Calls,
    faults: u64,
}

impl Model for MemorySink {
    ghost use Rattle.wg_outside.specs.MemorySink.{SinkView};

    ghost Value = { SinkView };

    ghost view = { λ s. record {
      bytes = s.held.bytes.items;
      fail = s.calls.fail.items;
      calls = s.calls.count;
      room = s.held.room;
      faults = s.faults;
    } };
}

impl MemorySink {
    /// A sink without bytes. `fail` lists the numbers of the calls that are to fail. It reserves
    /// `room` bytes; a put beyond them is a fault and appends nothing.
    pub fn new(alloc: Global, fail: &[u32], room: u64) -> Result<MemorySink, Memory>
        ensures { IfOk result (λ s. s ≡ new_sink fail.now room) }
    {
        let Ok(bytes) = Vec::with_capacity(alloc, room as usize) else {
            return Err(Memory);
        };
        let calls = Calls::new(alloc, fail)?;
        Ok(MemorySink {
            held: Held { bytes, room },
            calls,
            faults: 0,
        })
    }

    /// What was put there.
    pub fn bytes(&self) -> &[u8]
        ensures { result.now ≡ self.now.bytes }
    {
        &self.held.bytes
    }
}

impl Sink for MemorySink {
    ghost written = { λ s. Some s.bytes };

    ghost faults = { λ s. s.faults };

    // The clauses of the trait, and that the listed calls and those beyond the room fail, and no
    // others; a call that fails appends nothing.
    fn put(&mut self, bytes: &[u8]) -> Result<(), Failed>
        ensures appended { OnOk result (Appends (Some self.old.bytes) (Some self.new.bytes) bytes.now) }
        ensures failed { OnErr result (Rose self.old.faults self.new.faults) }
        ensures part { OnErr result (AppendsPrefix (Some self.old.bytes) (Some self.new.bytes) bytes.now) }
        ensures faults_stand { self.old.faults ≤ self.new.faults }
        ensures listed { Contains self.old.fail self.old.calls → OnOk result ⊥ }
        ensures beyond { OnOk result (length bytes.now ≤ self.old.room) }
        ensures only_these { OnErr result ((Contains self.old.fail self.old.calls → ⊥) →
            length bytes.now ≤ self.old.room → ⊥) }
        ensures failed_keeps { OnErr result (self.new.bytes ≡ self.old.bytes) }
        ensures fault_only_there { OnOk result (self.new.faults ≡ self.old.faults) }
        ensures numbered { self.new.calls ≡ next_count self.old.calls }
        ensures room { OnOk result (self.new.room + length bytes.now ≡ self.old.room) }
        ensures fail_stays { self.new.fail ≡ self.old.fail }
    {
        if self.calls.next_fails() {
            raise(&mut self.faults);
            return Err(Failed);
        }
        if self.held.room < bytes.len() as u64 {
            raise(&mut self.faults);
            return Err(Failed);
        }
        self.held.append(bytes);
        Ok(())
    }
}
