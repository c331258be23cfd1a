// Setting a file to other bytes, so that at every moment it is the old file or the new one, whole.
//
// The bytes go to a file beside the named one, which is synced and renamed. Whoever writes it holds its lock, so a
// file beside without a lock was left by a process that was ended, and is removed by the next save in that folder.
ghost use Rattle.std.specs.Prelude.{◌≡◌};

use crate::whole::write_whole;
use arrayvec::ArrayString;
use std::fs::{self, File, Metadata, OpenFile, OpenOptions, TryLockError};
use std::io::ErrorKind;
use std::os::unix::fs::MetadataExt;
use std::rt::Files;

// The most bytes of a path on Linux.
const LONGEST_PATH: usize = 4096;

// The last letters of the names that files beside may have: so many processes save in one folder at a moment.
const LETTERS: [char; 16] = [
    'a', 'b', 'c', 'd', 'e', 'f', 'g', 'h', 'i', 'j', 'k', 'l', 'm', 'n', 'o', 'p',
];

// How often each of these names is asked for before a save fails.
const ROUNDS: u32 = 10_000;

type Path = ArrayString<LONGEST_PATH>;

// Whose a file beside is.
#[derive(Clone, Copy)]
enum Holder {
    // This process holds its lock, and the path still leads to it.
    Here,
    // Another process holds it, or has renamed or removed it.
    Elsewhere,
    // The file system has no locks.
    Nobody,
}

// What came of a save by a file beside the named one.
#[derive(Clone, Copy)]
enum Outcome {
    Saved,
    Failed,
    // The name is no regular file, or its folder takes no further file: it can be written in place alone.
    InPlace,
}

/// Sets the file to these bytes, and says whether it could. Where it could not, the file is as it was; but for a name
/// that is no regular file, or that has a folder or an owner that allow no file beside it: that is written in place.
pub(crate) fn save_file<R: Files<File = File>>(rt: &R, name: &str, bytes: &[u8]) -> bool {
    match replaced(rt, name, bytes) {
        Outcome::Saved => true,
        Outcome::Failed => false,
        Outcome::InPlace => written_in_place(rt, name, bytes),
    }
}

fn written_in_place<R: Files<File = File>>(rt: &R, name: &str, bytes: &[u8]) -> bool {
    match fs::create(rt, name) {
        Ok(mut file) => write_whole(&mut file, bytes),
        Err(_) => false,
    }
}

fn replaced<R: Files<File = File>>(rt: &R, name: &str, bytes: &[u8]) -> Outcome {
    let old = match fs::symlink_metadata(rt, name) {
        Ok(old) => old,
        Err(error) => {
            if error.kind() == ErrorKind::NotFound {
                return saved_beside(rt, name, None, bytes);
            }
            return Outcome::InPlace;
        }
    };
    if !old.is_file() {
        return Outcome::InPlace;
    }
    // A file that may not be written is not replaced either.
    if OpenOptions::new().write(true).open(rt, name).is_err() {
        return Outcome::Failed;
    }
    saved_beside(rt, name, Some(&old), bytes)
}

// Saves by a file beside the named one, which gets the owner and the permissions of the old one.
fn saved_beside<R: Files<File = File>>(
    rt: &R,
    name: &str,
    old: Option<&Metadata>,
    bytes: &[u8],
) -> Outcome {
    for _ in 0..ROUNDS {
        for letter in LETTERS {
            let Some(path) = path_beside(name, letter) else {
                return Outcome::InPlace;
            };
            if let Some(outcome) = saved_by(rt, path.as_str(), name, old, bytes) {
                return outcome;
            }
        }
    }
    Outcome::Failed
}

// Saves by the file beside at this path, or answers none if another process has it.
fn saved_by<R: Files<File = File>>(
    rt: &R,
    path: &str,
    name: &str,
    old: Option<&Metadata>,
    bytes: &[u8],
) -> Option<Outcome> {
    let mut file = match OpenOptions::new()
        .write(true)
        .create_new(true)
        .open(rt, path)
    {
        Ok(file) => file,
        Err(error) => {
            return match error.kind() {
                ErrorKind::AlreadyExists => {
                    remove_if_left(rt, path);
                    None
                }
                ErrorKind::PermissionDenied => Some(Outcome::InPlace),
                _ => Some(Outcome::Failed),
            };
        }
    };
    match holder_of(rt, &file, path) {
        Holder::Here => {
            let outcome = filled(rt, &mut file, path, old, name, bytes);
            remove_left(rt, name);
            Some(outcome)
        }
        Holder::Elsewhere => None,
        Holder::Nobody => {
            let _ = fs::remove_file(rt, path);
            Some(Outcome::InPlace)
        }
    }
}

// Fills the file beside and gives it the name, or removes it again.
fn filled<R: Files<File = File>>(
    rt: &R,
    file: &mut File,
    path: &str,
    old: Option<&Metadata>,
    name: &str,
    bytes: &[u8],
) -> Outcome {
    let outcome = if !takes_after(rt, file, path, old) {
        Outcome::InPlace
    } else if write_whole(file, bytes)
        && file.sync_data().is_ok()
        && fs::rename(rt, path, name).is_ok()
    {
        return Outcome::Saved;
    } else {
        Outcome::Failed
    };
    // Where this fails too, the next save removes it.
    let _ = fs::remove_file(rt, path);
    outcome
}

// Gives the file beside the owner and the permissions of the old file, and says whether it could.
fn takes_after<R: Files<File = File>>(
    rt: &R,
    file: &File,
    path: &str,
    old: Option<&Metadata>,
) -> bool {
    let Some(old) = old else {
        return true;
    };
    let Ok(new) = file.metadata() else {
        return false;
    };
    let has_owner = new.uid() == old.uid() && new.gid() == old.gid();
    (has_owner || rt.chown(path, Some(old.uid()), Some(old.gid())).is_ok())
        && file.set_permissions(old.permissions()).is_ok()
}

// Takes the lock of the file, if it is free, and says whose the file at the path then is.
fn holder_of<R: Files<File = File>>(rt: &R, file: &File, path: &str) -> Holder {
    match file.try_lock() {
        Ok(()) => {}
        Err(TryLockError::WouldBlock) => return Holder::Elsewhere,
        Err(TryLockError::Error(_)) => return Holder::Nobody,
    }
    match (file.metadata(), fs::symlink_metadata(rt, path)) {
        (Ok(held), Ok(found)) if held.ino() == found.ino() && held.dev() == found.dev() =>
            Holder::Here,
        _ => Holder::Elsewhere,
    }
}

// Removes a file beside that no process holds: one that was ended has left it.
fn remove_if_left<R: Files<File = File>>(rt: &R, path: &str) {
    if let Ok(file) = OpenOptions::new().write(true).open(rt, path) {
        if matches!(holder_of(rt, &file, path), Holder::Here) {
            let _ = fs::remove_file(rt, path);
        }
    }
}

// Removes all files beside the named one that processes that were ended have left.
fn remove_left<R: Files<File = File>>(rt: &R, name: &str) {
    for letter in LETTERS {
        if let Some(path) = path_beside(name, letter) {
            remove_if_left(rt, path.as_str());
        }
    }
}

// The path of the file beside with this letter, in the folder of the named file, if it is short enough.
fn path_beside(name: &str, letter: char) -> Option<Path> {
    let mut path = Path::new();
    if let Some((folder, _)) = name.rsplit_once('/') {
        path.try_push_str(folder).ok()?;
        path.try_push('/').ok()?;
    }
    path.try_push_str(".wgcc-save-").ok()?;
    path.try_push(letter).ok()?;
    Some(path)
}
