//! The words of the command line.

use crate::error::DumpError;
use clap::error::ErrorKind;
use clap::{Arg, ArgAction, Command, value_parser};
use std::alloc::{AllocError, Global};
use wg_num::Width;

/// A pass, by what it leaves.
#[derive(Clone, Copy)]
pub(crate) enum Stage {
    /// The tokens behind the macros.
    Tokens,
    /// The typed program.
    Program,
    /// The kernel without calls.
    Kernel,
    /// The same, made simple.
    Simplified,
    /// Which variables vary.
    Varying,
    /// The tree of regions.
    Regions,
    /// Where each cell is kept.
    Plan,
    /// The listing of the program of a work-group, as its regions are lowered.
    Code,
    /// The listing of the same with its codes tidied, which is what runs.
    Tidied,
}

fn stage_named(name: &str) -> Option<Stage> {
    match name {
        "tokens" => Some(Stage::Tokens),
        "program" => Some(Stage::Program),
        "kernel" => Some(Stage::Kernel),
        "simplified" => Some(Stage::Simplified),
        "varying" => Some(Stage::Varying),
        "regions" => Some(Stage::Regions),
        "plan" => Some(Stage::Plan),
        "code" => Some(Stage::Code),
        "tidied" => Some(Stage::Tidied),
        _ => None,
    }
}

fn width_with(lanes: u64) -> Option<Width> {
    match lanes {
        1 => Some(Width::W1),
        4 => Some(Width::W4),
        8 => Some(Width::W8),
        16 => Some(Width::W16),
        _ => None,
    }
}

/// What is asked for: a stage of the kernel of that name in that file, and the width of the code.
#[derive(Clone, Copy)]
pub(crate) struct Asked<'a> {
    pub(crate) stage: Stage,
    pub(crate) source: &'a str,
    pub(crate) kernel: &'a str,
    pub(crate) width: Width,
}

fn argument<'a>(alloc: Global, name: &'a str) -> Arg<'a> {
    Arg::new(alloc, name).required(true).action(ArgAction::Set)
}

fn command<'a>(alloc: Global) -> Result<Command<'a>, AllocError> {
    let lanes = Arg::new(alloc, "lanes")
        .long("lanes")
        .action(ArgAction::Set)
        .value_parser(value_parser!(u64));
    Command::new(alloc, "wgcc_dump")
        .no_binary_name(true)
        .disable_help_flag(true)
        .disable_version_flag(true)
        .arg(argument(alloc, "STAGE"))?
        .arg(argument(alloc, "SOURCE"))?
        .arg(argument(alloc, "KERNEL"))?
        .arg(lanes)
}

/// What the words ask for, 8 lanes where none are given. `Usage` comes where they are not those of the usage.
pub(crate) fn read_words<'a>(alloc: Global, words: &'a [String]) -> Result<Asked<'a>, DumpError> {
    let matches = match command(alloc)?.try_get_matches_from(words) {
        Ok(matches) => matches,
        Err(error) if error.kind() == ErrorKind::OutOfMemory => return Err(DumpError::Memory),
        Err(_) => return Err(DumpError::Usage),
    };
    let lanes = matches.get_one::<u64>("lanes").unwrap_or(8);
    let stage = match matches.get_str("STAGE") {
        Some(name) => stage_named(name),
        None => None,
    };
    match (
        stage,
        matches.get_str("SOURCE"),
        matches.get_str("KERNEL"),
        width_with(lanes),
    ) {
        (Some(stage), Some(source), Some(kernel), Some(width)) => Ok(Asked {
            stage,
            source,
            kernel,
            width,
        }),
        _ => Err(DumpError::Usage),
    }
}
