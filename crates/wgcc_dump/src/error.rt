//! Why nothing is printed, with the status of each reason and its line.

use cl_front::{Condition, SourceError};
use std::alloc::{AllocError, Global};
use std::fmt::Write;
use wg_num::{Memory, Place};
use wg_outside::{Failed, LoadError, Sink};

/// Why nothing is printed.
#[derive(Clone, Copy)]
pub(crate) enum DumpError {
    /// The words are not those of the usage.
    Usage,
    /// The source is not there, or reading it failed.
    Unreadable,
    /// The condition of the source stands at that place.
    Refused { condition: Condition, place: Place },
    Memory,
    /// Writing failed.
    Unwritable,
}

impl From<AllocError> for DumpError {
    fn from(_error: AllocError) -> DumpError {
        DumpError::Memory
    }
}

impl From<Memory> for DumpError {
    fn from(_error: Memory) -> DumpError {
        DumpError::Memory
    }
}

impl From<LoadError> for DumpError {
    fn from(error: LoadError) -> DumpError {
        match error {
            LoadError::Absent | LoadError::Failed => DumpError::Unreadable,
            LoadError::Memory => DumpError::Memory,
        }
    }
}

impl From<Failed> for DumpError {
    fn from(_error: Failed) -> DumpError {
        DumpError::Unwritable
    }
}

impl From<SourceError> for DumpError {
    fn from(error: SourceError) -> DumpError {
        match error {
            SourceError::Refused { condition, place } => DumpError::Refused { condition, place },
            SourceError::Memory => DumpError::Memory,
        }
    }
}

/// The status with which the program ends, as `wgcc` numbers them.
pub(crate) fn status_of(error: DumpError) -> u8 {
    match error {
        DumpError::Unwritable => 1,
        DumpError::Usage => 2,
        DumpError::Refused { .. } => 3,
        DumpError::Memory => 8,
        DumpError::Unreadable => 9,
    }
}

const USAGE: &str = "usage: wgcc_dump STAGE SOURCE KERNEL [--lanes 1|4|8|16]\n\
    STAGE: tokens|program|kernel|simplified|varying|regions|plan|code|tidied\n";

fn refusal_line(alloc: Global, condition: Condition, place: Place) -> Result<String, AllocError> {
    let number = condition.number();
    let Place { line, column } = place;
    let meaning = std::str::from_utf8(condition.text()).unwrap_or("");
    format!(in alloc; "wgcc_dump: {line}:{column}: E{number} {meaning}\n")
}

/// Says why nothing is printed, as far as that goes.
pub(crate) fn say<E: Sink>(alloc: Global, sink: &mut E, error: DumpError) {
    let _said = match error {
        DumpError::Usage => sink.put(USAGE.as_bytes()),
        DumpError::Unreadable => sink.put(b"wgcc_dump: cannot read the source\n"),
        DumpError::Unwritable => sink.put(b"wgcc_dump: cannot write\n"),
        DumpError::Memory => sink.put(b"wgcc_dump: out of memory\n"),
        DumpError::Refused { condition, place } => match refusal_line(alloc, condition, place) {
            Ok(line) => sink.put(line.as_bytes()),
            Err(_) => sink.put(b"wgcc_dump: the source is refused\n"),
        },
    };
}
