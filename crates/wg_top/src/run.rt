// Running the launches of a launch file from its files.
ghost use Rattle.std.specs.Prelude.{◌≡◌, All, List, None, IfOk, IfErr, length, map};
ghost use Rattle.cl_model.specs.View.{launch_of};
ghost use Rattle.cl_meaning.specs.Typed.{Unit'};
ghost use Rattle.cl_meaning.specs.View.{unit_of};
ghost use Rattle.launch_file.specs.Texts.{Text, text_of};
ghost use Rattle.wg_outside.specs.Counts.{Rose};
ghost use Rattle.wg_top.specs.declared.RunError.TheVariants as refusals;
ghost use Rattle.wg_top.specs.Causes.{standing, HasNoFewer, AcceptedClean, LeavesClean};
ghost use Rattle.wg_top.specs.CompiledCauses.{Cause, LeavesFiles, IsRun, IsDone};
ghost use Rattle.wg_top.specs.Stages.{BackCause, LeavesOthers};
ghost use Rattle.wg_top.specs.Programs.{AreRun, HasKinds, RunsCause, RunsLeave, programs_of};
ghost use Rattle.wg_top.specs.Programs.{runs_of, runs_refusal};
ghost use Rattle.wg_top.specs.Given.{IsText, IsGiven};
ghost use Rattle.wg_top.specs.Launches.{launches_in, IsReady};
ghost use Rattle.wg_top.specs.CompiledLaunches.{AllFit};
ghost use Rattle.wg_top.specs.Ends.{asked};

use crate::launches::{bind_each, count_all, prepare_each, run_each};
use crate::reading::{Given, Options, read_all};
use crate::runnable::{Runnable, runnables};
use crate::{RunError, Summary};
use buffer_io::{load_all, save_all};
use cl_model::Launch;
use launch_file::LaunchText;
use std::alloc::Global;
use wg_num::Memory;
use wg_outside::{Failed, LoadError, Store};

/// Loads the buffers, runs the launches and saves the buffers.
pub(crate) fn run_programs<S: Store>(
    alloc: Global,
    store: &mut S,
    runnables: &[Runnable<'_>],
    text: &LaunchText,
    launches: Vec<Launch>,
) -> Result<Summary, RunError>
    requires text { IsText text.now }
    requires as_many { length launches.items ≡ length text.now.list.items }
    requires launches { map launch_of launches.items ≡ launches_in (text_of text.now) }
    requires ready { All (IsReady text.now.buffers.items) launches.items }
    requires fit { AllFit (programs_of (map runs_of runnables.now)) launches.items }
    requires accepted { runs_refusal (text_of text.now) (map runs_of runnables.now) ≡ None }
    ensures ok { IfOk result
        (AreRun (S.files store.old) (S.files store.new) (text_of text.now) (map runs_of runnables.now)) }
    ensures err { IfErr result (RunsCause (standing S.files S.faults S.misses store.old)
        (standing S.files S.faults S.misses store.new) (text_of text.now) (map runs_of runnables.now)) }
    ensures left { IfErr result (RunsLeave (standing S.files S.faults S.misses store.old)
        (standing S.files S.faults S.misses store.new) (text_of text.now) (map runs_of runnables.now)) }
    ensures stands { HasNoFewer (standing S.files S.faults S.misses store.old)
        (standing S.files S.faults S.misses store.new) }
{
    let summary = count_all(&launches);
    let mut buffers = match load_all(alloc, store, &launches[0]) {
        Ok(buffers) => buffers,
        Err(LoadError::Absent) => return Err(RunError::Absent),
        Err(LoadError::Failed) => return Err(RunError::Failed),
        Err(LoadError::Memory) => return Err(RunError::Memory),
    };
    let mut launchers = match prepare_each(alloc, runnables, launches) {
        Ok(launchers) => launchers,
        Err(Memory) => return Err(RunError::Memory),
    };
    match run_each(&mut launchers, &mut buffers, text.several) {
        Ok(()) => {}
        Err(error) => return Err(error),
    }
    match save_all(store, launchers[0].launch(), &buffers) {
        Ok(()) => Ok(summary),
        Err(Failed) => Err(RunError::Failed),
    }
}

/// Binds the launches, each to its own kernel, and runs them from their files to their files.
pub(crate) fn run_runnables<S: Store>(
    alloc: Global,
    store: &mut S,
    runnables: &[Runnable<'_>],
    text: &LaunchText,
) -> Result<Summary, RunError>
    requires text { IsText text.now }
    requires as_many { length runnables.now ≡ length text.now.list.items }
    requires kinds { All HasKinds runnables.now }
    ensures ok { IfOk result
        (AreRun (S.files store.old) (S.files store.new) (text_of text.now) (map runs_of runnables.now)) }
    ensures err { IfErr result (RunsCause (standing S.files S.faults S.misses store.old)
        (standing S.files S.faults S.misses store.new) (text_of text.now) (map runs_of runnables.now)) }
    ensures left { IfErr result (RunsLeave (standing S.files S.faults S.misses store.old)
        (standing S.files S.faults S.misses store.new) (text_of text.now) (map runs_of runnables.now)) }
    ensures stands { HasNoFewer (standing S.files S.faults S.misses store.old)
        (standing S.files S.faults S.misses store.new) }
{
    match bind_each(alloc, runnables, text) {
        Ok(launches) => run_programs(alloc, store, runnables, text, launches),
        Err(error) => Err(error),
    }
}

// Binds the launches, and runs them from their files to their files.
fn run_given<S: Store>(alloc: Global, store: &mut S, given: Given) -> Result<Summary, RunError>
    requires { IsGiven given }
    ensures ok { IfOk result (IsRun (S.files store.old) (S.files store.new) (text_of given.text)
        (map (λ c. unit_of c.program) given.kernels.items)) }
    ensures err { IfErr result (BackCause (standing S.files S.faults S.misses store.old)
        (standing S.files S.faults S.misses store.new) (text_of given.text)
        (map (λ c. unit_of c.program) given.kernels.items)) }
    ensures left { IfErr result (LeavesOthers (standing S.files S.faults S.misses store.old)
        (standing S.files S.faults S.misses store.new) (text_of given.text)
        (map (λ c. unit_of c.program) given.kernels.items)) }
    ensures stands { HasNoFewer (standing S.files S.faults S.misses store.old)
        (standing S.files S.faults S.misses store.new) }
{
    let Given { text, kernels } = given;
    match runnables(alloc, &kernels) {
        Ok(runnables) => run_runnables(alloc, store, &runnables, &text),
        Err(Memory) => Err(RunError::Memory),
    }
}

/// Runs the launches of the launch file with the source, from their files to their files; `lanes`
/// and `turns` are the numbers of the options that are given. The source is loaded first, then the
/// launch file, then the buffers in order; the first step that is refused ends the call. The
/// launches run in order, each on the buffers that the one before it left. No file is saved before
/// each work-item has ended. Where no interleaving of any launch races, faults, parts or begins too
/// many iterations, the files are there and no fault rises, the saved buffers are what every
/// interleaving leaves, and the one refusal is want of memory.
pub fn run_source<S: Store>(
    alloc: Global,
    store: &mut S,
    source: &str,
    launch: &str,
    lanes: Option<u64>,
    turns: Option<u64>,
) -> Result<Summary, RunError>
    ensures ok { IfOk result (IsDone (S.files store.old) (S.files store.new)
        (asked source.now launch.now lanes turns)) }
    ensures err { IfErr result (Cause (standing S.files S.faults S.misses store.old)
        (standing S.files S.faults S.misses store.new) (asked source.now launch.now lanes turns)) }
    ensures left { IfErr result (LeavesFiles (standing S.files S.faults S.misses store.old)
        (standing S.files S.faults S.misses store.new) (asked source.now launch.now lanes turns)) }
    ensures stands { HasNoFewer (standing S.files S.faults S.misses store.old)
        (standing S.files S.faults S.misses store.new) }
    ensures clean { IfOk result (λ _. (text : Text) (units : List Unit') →
        AcceptedClean (S.files store.old) (asked source.now launch.now lanes turns) text units →
        LeavesClean (S.files store.old) (S.files store.new) text units) }
    ensures only_memory { IfErr result (λ error. (text : Text) (units : List Unit') →
        AcceptedClean (S.files store.old) (asked source.now launch.now lanes turns) text units →
        (Rose (S.faults store.old) (S.faults store.new) → ⊥) → error ≡ refusals.Memory) }
{
    match read_all(alloc, store, source, launch, Options { lanes, turns }) {
        Ok(given) => run_given(alloc, store, given),
        Err(error) => Err(error),
    }
}
