// A store over the files of the current folder.
ghost use Rattle.std.specs.Prelude.{◌≡◌, ◌≤◌, ◌<◌, None, IfOk, vec_len};
ghost use Rattle.wg_outside.specs.FolderStore.{new_counts};

use crate::replace::save_file;
use crate::{Failed, LoadError, Store, raise};
use std::alloc::Global;
use std::fs::{self, File};
use std::io::{ErrorKind, Read};
use std::marker::Model;
use std::rt::Files;

/// Reads and writes files by their names in the current folder, through the runtime that it
/// borrows. It tells nothing of content; a contract sees its counts of faults and of misses.
#[derive(Drop)]
pub struct FolderStore<'a, R: Files> {
    rt: &'a R,
    faults: u64,
    misses: u64,
}

impl<'a, R: Files> Model for FolderStore<'a, R> {
    ghost use Rattle.wg_outside.specs.FolderStore.{FolderCounts};

    ghost Value = { FolderCounts };

    ghost view = { λ s. record { faults = s.faults; misses = s.misses } };
}

const PIECE: usize = 4096;

// Reads the first `most` bytes, or all if there are fewer. A read that gives nothing is the end.
fn read_start<F: Read>(alloc: Global, file: &mut F, most: u64) -> Result<Vec<u8>, LoadError>
    ensures { IfOk result (λ v. vec_len v ≤ most) }
{
    let mut bytes = Vec::new(alloc);
    let mut left = most;
    let mut piece = [0u8; PIECE];
    for _ in 0..u64::MAX {
        let room = left.min(PIECE as u64) as usize;
        if room == 0 {
            return Ok(bytes);
        }
        match file.read(&mut piece[..room]) {
            Ok(0) => return Ok(bytes),
            Ok(count) => {
                if bytes.extend_from_slice(&piece[..count]).is_err() {
                    return Err(LoadError::Memory);
                }
                left -= count as u64;
            }
            Err(error) => {
                if error.kind() != ErrorKind::Interrupted {
                    return Err(LoadError::Failed);
                }
            }
        }
    }
    Err(LoadError::Failed)
}

fn load_file<R: Files>(rt: &R, alloc: Global, name: &str, most: u64) -> Result<Vec<u8>, LoadError>
    ensures { IfOk result (λ v. vec_len v ≤ most) }
{
    match fs::open(rt, name) {
        Ok(mut file) => read_start(alloc, &mut file, most),
        Err(error) => {
            if error.kind() == ErrorKind::NotFound {
                Err(LoadError::Absent)
            } else {
                Err(LoadError::Failed)
            }
        }
    }
}

impl<'a, R: Files> FolderStore<'a, R> {
    /// A store over the current folder, whose counts stand at 0.
    pub fn new(rt: &'a R) -> FolderStore<'a, R>
        ensures { result ≡ new_counts }
    {
        FolderStore {
            rt,
            faults: 0,
            misses: 0,
        }
    }
}

impl<'a, R: Files<File = File>> Store for FolderStore<'a, R> {
    ghost files = { λ _. None };

    ghost faults = { λ s. s.faults };

    ghost misses = { λ s. s.misses };

    ghost certain = { λ _ _ _. ⊥ };

    fn load(&mut self, alloc: Global, name: &str, most: u64) -> Result<Vec<u8>, LoadError> {
        let loaded = load_file(self.rt, alloc, name, most);
        match &loaded {
            Err(LoadError::Failed) => raise(&mut self.faults),
            Err(LoadError::Absent) => raise(&mut self.misses),
            _ => {}
        }
        loaded
    }

    fn save(&mut self, name: &str, bytes: &[u8]) -> Result<(), Failed> {
        if save_file(self.rt, name, bytes) {
            return Ok(());
        }
        raise(&mut self.faults);
        Err(Failed)
    }
}
