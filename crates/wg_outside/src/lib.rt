//! The outside: stores of files and sinks of bytes.
#![tactic(auto)]

ghost use Rattle.std.specs.Prelude.{◌≡◌, ℕ, ◌≤◌, ◌<◌, ◌+◌, length, List, Option, IfOk, OnOk};
ghost use Rattle.std.specs.Prelude.{OnErr, Err, is_some, vec_len};
ghost use Rattle.std.specs.Io.KnownBytes.{Appends};
ghost use Rattle.wg_outside.specs.Counts.{Rose};
ghost use Rattle.wg_outside.specs.Files.{FileMap, HasFileStart, LacksFile, HasSaved, KeepsOthers};
ghost use Rattle.wg_outside.specs.Bytes.{AppendsPrefix};

use std::alloc::Global;
use thiserror::Error;

mod calls;
mod folder_store;
mod memory_sink;
mod memory_store;
mod pool;
mod replace;
mod std_sink;
mod whole;

pub use folder_store::FolderStore;
pub use memory_sink::MemorySink;
pub use memory_store::MemoryStore;
pub use std_sink::StdSink;

/// Reading or writing failed.
#[derive(Clone, Copy, Debug, PartialEq, Eq, Error)]
#[error("cannot read or write")]
pub struct Failed;

/// Why a file was not loaded.
#[derive(Clone, Copy, Debug, PartialEq, Eq, Error)]
pub enum LoadError {
    /// There is no file of that name.
    #[error("no such file")]
    Absent,
    #[error("cannot read")]
    Failed,
    #[error("out of memory")]
    Memory,
}

/// Files under names, as bytes. `files` is what the store holds, where it tells that: a store of
/// the system's files does not, and then no clause on content says anything. `faults` counts what
/// failed, and `misses` the loads of names that are not there. Neither falls, and a count at its
/// largest value stays there.
pub trait Store {
    ghost files: { Self → Option FileMap };

    ghost faults: { Self → ℕ };

    ghost misses: { Self → ℕ };

    // That so many saves, of so many bytes with their names, will not fault, and no load will.
    ghost certain: { Self → ℕ → ℕ → Type 0 };

    /// The first `most` bytes of a file, or all if it has fewer. A name that is not there is a
    /// miss and no fault.
    fn load(&mut self, alloc: Global, name: &str, most: u64) -> Result<Vec<u8>, LoadError>
        ensures content { IfOk result (λ v. HasFileStart (files self.old) name.now most v.items) }
        ensures at_most { IfOk result (λ v. vec_len v ≤ most) }
        ensures failed { result ≡ Err LoadError.Failed → Rose (faults self.old) (faults self.new) }
        ensures absent { result ≡ Err LoadError.Absent → Rose (misses self.old) (misses self.new) }
        ensures absent_name { result ≡ Err LoadError.Absent → LacksFile (files self.old) name.now }
        ensures absent_is_no_fault { result ≡ Err LoadError.Absent → faults self.new ≡ faults self.old }
        ensures files_stay { files self.new ≡ files self.old }
        ensures faults_stand { faults self.old ≤ faults self.new }
        ensures misses_stand { misses self.old ≤ misses self.new }
        ensures certain { (saves room : ℕ) → certain self.old saves room → certain self.new saves room ×
            (faults self.new ≡ faults self.old) };

    /// Sets a name to these bytes. It takes no memory that could be refused. Where it fails, only
    /// that name may differ afterwards.
    fn save(&mut self, name: &str, bytes: &[u8]) -> Result<(), Failed>
        ensures saved { OnOk result (HasSaved (files self.old) (files self.new) name.now bytes.now) }
        ensures failed { OnErr result (Rose (faults self.old) (faults self.new)) }
        ensures others { KeepsOthers (files self.old) (files self.new) name.now }
        ensures tells { is_some (files self.new) ≡ is_some (files self.old) }
        ensures faults_stand { faults self.old ≤ faults self.new }
        ensures misses_stand { misses self.old ≤ misses self.new }
        ensures certain { (saves room : ℕ) →
            certain self.old (saves + 1) (room + length name.now + length bytes.now) →
            certain self.new saves room × (faults self.new ≡ faults self.old) };
}

/// A place for bytes. `written` is what the sink holds, where it tells that: a sink over a writer
/// does not. `faults` counts the puts that failed; it never falls, and stays at its largest value.
pub trait Sink {
    ghost written: { Self → Option (List ℕ) };

    ghost faults: { Self → ℕ };

    /// Appends the bytes. Where it fails, some first part of them may stand there.
    fn put(&mut self, bytes: &[u8]) -> Result<(), Failed>
        ensures appended { OnOk result (Appends (written self.old) (written self.new) bytes.now) }
        ensures failed { OnErr result (Rose (faults self.old) (faults self.new)) }
        ensures part { OnErr result (AppendsPrefix (written self.old) (written self.new) bytes.now) }
        ensures faults_stand { faults self.old ≤ faults self.new };
}

// Raises a count, which stays at its largest value.
fn raise(count: &mut u64)
    ensures rose { Rose count.old count.new }
    ensures stands { count.old ≤ count.new }
{
    *count = count.saturating_add(1);
}
