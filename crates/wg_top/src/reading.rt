// The first steps of each command that has a source and a launch file.
ghost use Rattle.std.specs.Prelude.{◌≡◌, IfOk, IfErr, map};
ghost use Rattle.launch_file.specs.Texts.{text_of};
ghost use Rattle.wg_top.specs.Causes.{standing, HasNoFewer, SourceLoaded, ReadingCause, RunRead};
ghost use Rattle.wg_top.specs.Stages.{SourceCause, TextRead, LaunchCause};
ghost use Rattle.wg_top.specs.Given.{IsText, IsGiven};
ghost use Rattle.wg_top.specs.Ends.{asked};
ghost use Rattle.cl_meaning.specs.View.{unit_of};

use crate::RunError;
use crate::programs::compile_all;
use crate::shared::SharedKernel;
use launch_file::{LaunchError, LaunchText, read};
use std::alloc::Global;
use wg_outside::{LoadError, Store};

// How many bytes of a source are loaded: one more than a source may have.
const SOURCE_MOST: u64 = 262_145;

// The same of a launch file.
const LAUNCH_MOST: u64 = 1_048_577;

/// A launch file, and the kernel of each of its launches.
#[derive(Drop)]
pub(crate) struct Given {
    pub(crate) text: LaunchText,
    pub(crate) kernels: Vec<SharedKernel>,
}

/// What the options say: the lanes and the turns, where they are given.
#[derive(Clone, Copy)]
pub(crate) struct Options {
    pub(crate) lanes: Option<u64>,
    pub(crate) turns: Option<u64>,
}

/// Loads the source.
pub(crate) fn load_source<S: Store>(
    alloc: Global,
    store: &mut S,
    source: &str,
) -> Result<Vec<u8>, RunError>
    ensures ok { IfOk result (λ v. SourceLoaded (S.files store.old) source.now v.items) }
    ensures err { IfErr result (SourceCause (standing S.files S.faults S.misses store.old)
        (standing S.files S.faults S.misses store.new) source.now) }
    ensures files_stay { S.files store.new ≡ S.files store.old }
    ensures stands { HasNoFewer (standing S.files S.faults S.misses store.old)
        (standing S.files S.faults S.misses store.new) }
{
    match store.load(alloc, source, SOURCE_MOST) {
        Ok(bytes) => Ok(bytes),
        Err(LoadError::Absent) => Err(RunError::Absent),
        Err(LoadError::Failed) => Err(RunError::Failed),
        Err(LoadError::Memory) => Err(RunError::Memory),
    }
}

/// Loads and reads the launch file.
pub(crate) fn load_launch<S: Store>(
    alloc: Global,
    store: &mut S,
    launch: &str,
    options: Options,
) -> Result<LaunchText, RunError>
    ensures ok { IfOk result (λ t. TextRead (S.files store.old) launch.now options.lanes options.turns (text_of t)) }
    ensures is { IfOk result IsText }
    ensures err { IfErr result (LaunchCause (standing S.files S.faults S.misses store.old)
        (standing S.files S.faults S.misses store.new) launch.now options.lanes options.turns) }
    ensures files_stay { S.files store.new ≡ S.files store.old }
    ensures stands { HasNoFewer (standing S.files S.faults S.misses store.old)
        (standing S.files S.faults S.misses store.new) }
{
    match store.load(alloc, launch, LAUNCH_MOST) {
        Ok(bytes) => match read(alloc, &bytes, options.lanes, options.turns) {
            Ok(text) => Ok(text),
            Err(LaunchError::Refused(refusal)) => Err(RunError::Launch { refusal }),
            Err(LaunchError::Memory) => Err(RunError::Memory),
        },
        Err(LoadError::Absent) => Err(RunError::Absent),
        Err(LoadError::Failed) => Err(RunError::Failed),
        Err(LoadError::Memory) => Err(RunError::Memory),
    }
}

/// Loads the source, then the launch file, and compiles the kernel of each launch, each name once.
pub(crate) fn read_all<S: Store>(
    alloc: Global,
    store: &mut S,
    source: &str,
    launch: &str,
    options: Options,
) -> Result<Given, RunError>
    ensures read { IfOk result (λ g.
        RunRead (S.files store.old) (asked source.now launch.now options.lanes options.turns) (text_of g.text)
        (map (λ c. unit_of c.program) g.kernels.items)) }
    ensures given { IfOk result IsGiven }
    ensures err { IfErr result (ReadingCause (standing S.files S.faults S.misses store.old)
        (standing S.files S.faults S.misses store.new) (asked source.now launch.now options.lanes options.turns)) }
    ensures files_stay { S.files store.new ≡ S.files store.old }
    ensures stands { HasNoFewer (standing S.files S.faults S.misses store.old)
        (standing S.files S.faults S.misses store.new) }
{
    let bytes = match load_source(alloc, store, source) {
        Ok(bytes) => bytes,
        Err(error) => return Err(error),
    };
    let text = match load_launch(alloc, store, launch, options) {
        Ok(text) => text,
        Err(error) => return Err(error),
    };
    match compile_all(alloc, &bytes, &text) {
        Ok(kernels) => Ok(Given { text, kernels }),
        Err(error) => Err(error),
    }
}
