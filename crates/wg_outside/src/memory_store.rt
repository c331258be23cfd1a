// A store in memory.
ghost use Rattle.std.specs.Prelude.{◌≡◌, ◌↔◌, ◌≤◌, ◌<◌, ◌+◌, ◌++◌, ◌∷◌, [], Some};
ghost use Rattle.std.specs.Prelude.{None, Err, IfOk, OnErr, OnOk, length, option_map, take, Contains, true, false, ℕ};
ghost use Rattle.std.specs.Prelude.{vec_len, is_some};
ghost use Rattle.wg_outside.specs.Counts.{Rose, next_count};
ghost use Rattle.wg_outside.specs.Files.{file_in, HasFileStart, LacksFile, HasSaved, KeepsOthers};
ghost use Rattle.wg_outside.specs.MemoryStore.{HasRoomFor, new_store};

use crate::calls::Calls;
use crate::pool::Pool;
use crate::{Failed, LoadError, Store, raise};
use std::alloc::Global;
use std::marker::Model;
use wg_num::Memory;

/// Keeps files in memory, within the room that it reserved, and tells them. Its loads and saves
/// are numbered from 0. A contract sees the files, the numbers of the calls that are to fail, the
/// number of the next call, how many saves of how many bytes there is room for, and the counts.
#[derive(Drop)]
pub struct MemoryStore {
    pool: Pool,
    calls: Calls,
    faults: u64,
    misses: u64,
}

impl Model for MemoryStore {
    ghost use Rattle.wg_outside.specs.MemoryStore.{StoreView};
    ghost use Rattle.wg_outside.specs.Spans.{files_at};

    ghost Value = { StoreView };

    ghost view = { λ s. record {
      files = files_at s.pool.bytes.items s.pool.spans.items;
      fail = s.calls.fail.items;
      calls = s.calls.count;
      saves = s.pool.saves;
      room = s.pool.room;
      faults = s.faults;
      misses = s.misses;
    } };
}

impl MemoryStore {
    /// A store without files. `fail` lists the numbers of the calls that are to fail. It reserves
    /// room for `saves` saved files of together `room` bytes, names included; a save beyond that
    /// is a fault.
    pub fn new(alloc: Global, fail: &[u32], saves: u32, room: u64) -> Result<MemoryStore, Memory>
        ensures { IfOk result (λ s. s ≡ new_store fail.now saves room) }
    {
        let pool = Pool::new(alloc, saves, room)?;
        let calls = Calls::new(alloc, fail)?;
        Ok(MemoryStore {
            pool,
            calls,
            faults: 0,
            misses: 0,
        })
    }

    /// The bytes of a file; `None` exactly where there is none of that name.
    pub fn file(&self, name: &str) -> Option<&[u8]>
        ensures { option_map (λ b. b.now) result ≡ file_in self.now.files name.now }
    {
        self.pool.file(name)
    }

    /// Puts a file there beside the room for saves. It is no numbered call.
    pub fn add(&mut self, alloc: Global, name: &str, bytes: &[u8]) -> Result<(), Memory>
        requires { file_in self.old.files name.now ≡ None }
        ensures added { OnOk result (self.new ≡ record self.old {
          files = self.old.files ++ (
            name.now,
            bytes.now,
          ) ∷ [];
        }) }
        ensures err { OnErr result (self.new ≡ self.old) }
    {
        self.pool.add(name, bytes)
    }

    // Saves a file, where the call is not to fail and there is room.
    fn try_save(&mut self, name: &str, bytes: &[u8]) -> bool
        ensures listed { Contains self.old.fail self.old.calls → result ≡ true → ⊥ }
        ensures within { result ≡ true → HasRoomFor self.old name.now bytes.now }
        ensures succeeds { (Contains self.old.fail self.old.calls → ⊥) →
            HasRoomFor self.old name.now bytes.now → result ≡ true }
        ensures saved { result ≡ true → self.new.files ≡ self.old.files ++ (name.now, bytes.now) ∷ [] }
        ensures saves { result ≡ true → self.new.saves + 1 ≡ self.old.saves }
        ensures room { result ≡ true → self.new.room + length name.now + length bytes.now ≡ self.old.room }
        ensures refused { result ≡ false → self.new ≡ record self.old { calls = next_count self.old.calls } }
        ensures counts { (self.new.calls ≡ next_count self.old.calls) × (self.new.fail ≡ self.old.fail) ×
            (self.new.faults ≡ self.old.faults) × (self.new.misses ≡ self.old.misses) }
    {
        if self.calls.next_fails() {
            return false;
        }
        if !has_room(&self.pool, name, bytes) {
            return false;
        }
        self.pool.save(name, bytes);
        true
    }
}

// Whether a file fits into what is reserved.
fn has_room(pool: &Pool, name: &str, bytes: &[u8]) -> bool
    ensures { (result ≡ true) ↔ ((0 < pool.now.saves) × (length name.now + length bytes.now ≤ pool.now.room)) }
{
    let name_size = name.len() as u64;
    pool.saves > 0 && name_size <= pool.room && bytes.len() as u64 <= pool.room - name_size
}

impl Store for MemoryStore {
    ghost files = { λ s. Some s.files };

    ghost faults = { λ s. s.faults };

    ghost misses = { λ s. s.misses };

    ghost certain = { λ s saves room. (s.fail ≡ []) × (saves ≤ s.saves) × (room ≤ s.room) };

    // The clauses of the trait, and that the listed calls fail and no others.
    fn load(&mut self, alloc: Global, name: &str, most: u64) -> Result<Vec<u8>, LoadError>
        ensures content { IfOk result (λ v. HasFileStart (Some self.old.files) name.now most v.items) }
        ensures at_most { IfOk result (λ v. vec_len v ≤ most) }
        ensures failed { result ≡ Err LoadError.Failed → Rose self.old.faults self.new.faults }
        ensures absent { result ≡ Err LoadError.Absent → Rose self.old.misses self.new.misses }
        ensures absent_name { result ≡ Err LoadError.Absent → LacksFile (Some self.old.files) name.now }
        ensures absent_is_no_fault { result ≡ Err LoadError.Absent → self.new.faults ≡ self.old.faults }
        ensures files_stay { Some self.new.files ≡ Some self.old.files }
        ensures faults_stand { self.old.faults ≤ self.new.faults }
        ensures misses_stand { self.old.misses ≤ self.new.misses }
        ensures certain { (saves room : ℕ) → (self.old.fail ≡ []) × (saves ≤ self.old.saves) ×
            (room ≤ self.old.room) → ((self.new.fail ≡ []) × (saves ≤ self.new.saves) ×
            (room ≤ self.new.room)) × (self.new.faults ≡ self.old.faults) }
        ensures listed { Contains self.old.fail self.old.calls → result ≡ Err LoadError.Failed }
        ensures only_listed { result ≡ Err LoadError.Failed → Contains self.old.fail self.old.calls }
        ensures numbered { self.new.calls ≡ next_count self.old.calls }
        ensures stays { (self.new.fail ≡ self.old.fail) × (self.new.saves ≡ self.old.saves) ×
            (self.new.room ≡ self.old.room) }
    {
        if self.calls.next_fails() {
            raise(&mut self.faults);
            return Err(LoadError::Failed);
        }
        let Some(bytes) = self.pool.file(name) else {
            raise(&mut self.misses);
            return Err(LoadError::Absent);
        };
        match Vec::from_slice(alloc, first_part(bytes, most)) {
            Ok(copy) => Ok(copy),
            Err(_) => Err(LoadError::Memory),
        }
    }

    // The clauses of the trait, and that the listed calls and those beyond the room fail, and no
    // others; a call that fails leaves the files.
    fn save(&mut self, name: &str, bytes: &[u8]) -> Result<(), Failed>
        ensures saved { OnOk result (HasSaved (Some self.old.files) (Some self.new.files) name.now bytes.now) }
        ensures failed { OnErr result (Rose self.old.faults self.new.faults) }
        ensures others { KeepsOthers (Some self.old.files) (Some self.new.files) name.now }
        ensures tells { is_some (Some self.new.files) ≡ is_some (Some self.old.files) }
        ensures faults_stand { self.old.faults ≤ self.new.faults }
        ensures misses_stand { self.old.misses ≤ self.new.misses }
        ensures certain { (saves room : ℕ) → (self.old.fail ≡ []) × (saves + 1 ≤ self.old.saves) ×
            (room + length name.now + length bytes.now ≤ self.old.room) →
            ((self.new.fail ≡ []) × (saves ≤ self.new.saves) × (room ≤ self.new.room)) ×
            (self.new.faults ≡ self.old.faults) }
        ensures listed { Contains self.old.fail self.old.calls → OnOk result ⊥ }
        ensures beyond { OnOk result (HasRoomFor self.old name.now bytes.now) }
        ensures only_these { OnErr result ((Contains self.old.fail self.old.calls → ⊥) →
            HasRoomFor self.old name.now bytes.now → ⊥) }
        ensures failed_keeps { OnErr result (self.new.files ≡ self.old.files) }
        ensures numbered { self.new.calls ≡ next_count self.old.calls }
    {
        if self.try_save(name, bytes) {
            return Ok(());
        }
        raise(&mut self.faults);
        Err(Failed)
    }
}

// The first `most` bytes, or all if there are fewer.
fn first_part(bytes: &[u8], most: u64) -> &[u8]
    ensures { result.now ≡ take most bytes.now }
{
    if most < bytes.len() as u64 {
        &bytes[..most as usize]
    } else {
        bytes
    }
}
