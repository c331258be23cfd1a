//! The top call: from words to a status, from files to files, through all passes of the compiler.
#![tactic(auto)]

ghost use Rattle.std.specs.Prelude.{◌≡◌, ◌⊎◌, ℕ, List, map, string_bytes, is_some, true};
ghost use Rattle.command_words.specs.Command.{Files, Request, run, TakesWords, files_of, request_of};
ghost use Rattle.command_words.specs.Command.{ObjectFiles, exec, cached, build_of, object_of};
ghost use Rattle.launch_file.specs.Texts.{Text};
ghost use Rattle.wg_outside.specs.Counts.{Rose};
ghost use Rattle.wg_top.specs.Causes.{AcceptedClean, HasLoops};
ghost use Rattle.wg_top.specs.declared.RunError.{RunError};
ghost use Rattle.cl_prep.specs.declared.prep.Define.{Define};
ghost use Rattle.cl_check_sound.specs.Law.{DefinesFit};
ghost use Rattle.cl_front.specs.Forms.{FormsHold};
ghost use Rattle.cl_front.specs.Typed.{HasTypedUnit};
ghost use Rattle.cl_meaning.specs.Typed.{Unit'};
ghost use Rattle.wg_top.specs.Ends.{EndsCached, Ends, EndsShowing, EndsSample, EndsAsked};
ghost use Rattle.wg_top.specs.Ends.{AcceptedFor, FindsFor, NoStoreFault, KeepsOut, SaysLine};
ghost use Rattle.wg_top.specs.Ends.{EndsBuilding, EndsExec};
ghost use Rattle.wg_top.specs.Cached.{Honest};
ghost use Rattle.wg_top.specs.Honest.{WithHonestFiles};
ghost use Rattle.wg_top.specs.Outside.{sink_standing, outside, AreWords, EndsClean, EndsSaying};
ghost use Rattle.wg_top.specs.Outside.{usage_line, EndsUnasked};
ghost use Rattle.wg_top.specs.ExecOfSource.{IsExecOfSource};
ghost use Rattle.wg_top.specs.CompiledShown.{showing};
ghost use Rattle.wg_top.specs.Lines.{status_of};
ghost use Rattle.wg_top.specs.Promise.{Promised};
ghost use Rattle.wg_top.specs.Linked.{links};
ghost use Rattle.wg_compile.specs.Correct.{KeepsOnceIn};

use crate::cached::run_cached;
use crate::objects::{build_source, exec_object};
use crate::sample::{SAMPLE, sample_sum};
use crate::texts::{Shown, show_source};
use cl_front::Condition;
use command_words::{BuildWords, FileWords, ObjectWords, Words, WordsError, read_words};
use launch_file::Refusal;
use std::alloc::Global;
use wg_num::Place;
use wg_outside::{Failed, Sink, Store};

mod cached;
mod guard;
mod launches;
mod lines;
mod objects;
mod programs;
mod promise;
mod reading;
mod run;
mod runnable;
mod sample;
mod shared;
mod texts;

pub use launches::has_room;
pub use promise::promise_law;
pub use run::run_source;

/// Why a run is refused.
#[derive(Clone, Copy)]
pub enum RunError {
    /// A fault of the store rose.
    Failed,
    /// A file that the run loads is not there.
    Absent,
    /// The condition stands at that place of the source.
    Source {
        condition: Condition,
        place: Place,
    },
    /// The bytes of the object file are the text of no object.
    NotObject,
    /// The launch file is refused for that condition.
    Launch {
        refusal: Refusal,
    },
    /// In that launch, counted from 1, a work-item, by the number of its group and its own number
    /// in the launch, came to an element outside its object, at the access of that place of the
    /// source. `several` says whether the launch file lists its launches.
    Range {
        launch: u32,
        several: bool,
        group: u64,
        item: u64,
        place: Place,
    },
    /// In that launch a work-item waits at the barrier of that place, to which others of its group
    /// cannot come.
    Parted {
        launch: u32,
        several: bool,
        group: u64,
        item: u64,
        place: Place,
    },
    /// The work-items of that launch would begin more loop iterations than they may.
    Turns {
        launch: u32,
        several: bool,
    },
    Memory,
}

/// The numbers of the groups and of the work-items of the launches that were run, over all of them.
#[derive(Clone, Copy)]
pub struct Summary {
    pub groups: u64,
    pub items: u64,
}

fn status(error: &RunError) -> u8
    ensures { result ≡ status_of error.now }
{
    match error {
        RunError::Failed => 1,
        RunError::Absent => 9,
        RunError::Source { .. } => 3,
        RunError::NotObject => 3,
        RunError::Launch { .. } => 4,
        RunError::Range { .. } => 5,
        RunError::Parted { .. } => 6,
        RunError::Turns { .. } => 7,
        RunError::Memory => 8,
    }
}

// Runs the launches, and prints their line.
fn run_and_say<S: Store, O: Sink, E: Sink>(
    alloc: Global,
    files: FileWords,
    store: &mut S,
    out: &mut O,
    err: &mut E,
) -> u8
    ensures { Ends
        (outside S.files S.faults S.misses O.written O.faults E.written E.faults store.old out.old err.old)
        (outside S.files S.faults S.misses O.written O.faults E.written E.faults store.new out.new err.new)
        (files_of files.entry) result }
{
    match run_source(
        alloc,
        store,
        files.source,
        files.launch,
        files.lanes,
        files.turns,
    ) {
        Ok(summary) => match lines::say_done(out, summary.groups, summary.items) {
            Ok(()) => 0,
            Err(Failed) => {
                lines::say_error(err, files.source, &RunError::Failed);
                1
            }
        },
        Err(error) => {
            lines::say_error(err, files.source, &error);
            status(&error)
        }
    }
}

// Runs the launches with the compile cache, and prints their line.
fn cached_and_say<S: Store, O: Sink, E: Sink>(
    alloc: Global,
    files: FileWords,
    store: &mut S,
    out: &mut O,
    err: &mut E,
) -> u8
    ensures { EndsCached
        (outside S.files S.faults S.misses O.written O.faults E.written E.faults store.old out.old err.old)
        (outside S.files S.faults S.misses O.written O.faults E.written E.faults store.new out.new err.new)
        (files_of files.entry) result }
{
    match run_cached(alloc, store, files) {
        Ok(summary) => match lines::say_done(out, summary.groups, summary.items) {
            Ok(()) => 0,
            Err(Failed) => {
                lines::say_error(err, files.source, &RunError::Failed);
                1
            }
        },
        Err(error) => {
            lines::say_error(err, files.source, &error);
            status(&error)
        }
    }
}

// Prints the texts of the kernels of all launches.
fn show_and_say<S: Store, O: Sink, E: Sink>(
    alloc: Global,
    shown: Shown,
    files: FileWords,
    store: &mut S,
    out: &mut O,
    err: &mut E,
) -> u8
    ensures { EndsShowing
        (outside S.files S.faults S.misses O.written O.faults E.written E.faults store.old out.old err.old)
        (outside S.files S.faults S.misses O.written O.faults E.written E.faults store.new out.new err.new)
        (files_of files.entry) (showing shown) result }
{
    match show_source(alloc, shown, files, store) {
        Ok(text) => match out.put(&text) {
            Ok(()) => 0,
            Err(Failed) => {
                lines::say_error(err, files.source, &RunError::Failed);
                1
            }
        },
        Err(error) => {
            lines::say_error(err, files.source, &error);
            status(&error)
        }
    }
}

// Saves the object file, and prints its line.
fn build_and_say<S: Store, O: Sink, E: Sink>(
    alloc: Global,
    files: BuildWords,
    store: &mut S,
    out: &mut O,
    err: &mut E,
) -> u8
    ensures { EndsBuilding
        (outside S.files S.faults S.misses O.written O.faults E.written E.faults store.old out.old err.old)
        (outside S.files S.faults S.misses O.written O.faults E.written E.faults store.new out.new err.new)
        (build_of files.entry) result }
{
    match build_source(alloc, store, files) {
        Ok(()) => match lines::say_built(out) {
            Ok(()) => 0,
            Err(Failed) => {
                lines::say_error(err, files.source, &RunError::Failed);
                1
            }
        },
        Err(error) => {
            lines::say_error(err, files.source, &error);
            status(&error)
        }
    }
}

// Runs the launches of an object file, and prints their line.
fn exec_and_say<S: Store, O: Sink, E: Sink>(
    alloc: Global,
    files: ObjectWords,
    store: &mut S,
    out: &mut O,
    err: &mut E,
) -> u8
    ensures { EndsExec
        (outside S.files S.faults S.misses O.written O.faults E.written E.faults store.old out.old err.old)
        (outside S.files S.faults S.misses O.written O.faults E.written E.faults store.new out.new err.new)
        (object_of files.entry) result }
{
    match exec_object(alloc, store, files) {
        Ok(summary) => match lines::say_done(out, summary.groups, summary.items) {
            Ok(()) => 0,
            Err(Failed) => {
                lines::say_error(err, files.object, &RunError::Failed);
                1
            }
        },
        Err(error) => {
            lines::say_error(err, files.object, &error);
            status(&error)
        }
    }
}

// Runs the sample, and prints its line.
fn sample_and_say<O: Sink, E: Sink>(alloc: Global, number: u32, out: &mut O, err: &mut E) -> u8
    ensures { EndsSample
        (sink_standing O.written O.faults out.old) (sink_standing O.written O.faults out.new)
        (sink_standing E.written E.faults err.old) (sink_standing E.written E.faults err.new)
        number result }
{
    match sample_sum(alloc, number) {
        Ok(sum) => match lines::say_sample(out, number, sum) {
            Ok(()) => 0,
            Err(Failed) => {
                lines::say_error(err, SAMPLE, &RunError::Failed);
                1
            }
        },
        Err(error) => {
            lines::say_error(err, SAMPLE, &error);
            status(&error)
        }
    }
}

// Does what is asked for.
fn do_words<S: Store, O: Sink, E: Sink>(
    alloc: Global,
    words: Words,
    store: &mut S,
    out: &mut O,
    err: &mut E,
) -> u8
    ensures { EndsAsked
        (outside S.files S.faults S.misses O.written O.faults E.written E.faults store.old out.old err.old)
        (outside S.files S.faults S.misses O.written O.faults E.written E.faults store.new out.new err.new)
        (request_of words.entry) result }
{
    match words {
        Words::Run(files) => run_and_say(alloc, files, store, out, err),
        Words::Cached(files) => cached_and_say(alloc, files, store, out, err),
        Words::Plan(files) => show_and_say(alloc, Shown::Plan, files, store, out, err),
        Words::Code(files) => show_and_say(alloc, Shown::Code, files, store, out, err),
        Words::Sample(number) => sample_and_say(alloc, number, out, err),
        Words::Build(files) => build_and_say(alloc, files, store, out, err),
        Words::Exec(files) => exec_and_say(alloc, files, store, out, err),
    }
}

/// Does what the words say, and answers the program's status; `words` are those of the command
/// line without the program's name. `run SOURCE LAUNCH [--lanes N] [--turns N]` loads the source,
/// then the launch file, then the buffers, runs the launches in order, saves the buffers in order,
/// and puts one line on `out`. Where a step is refused, that ends the call with its status and its
/// line on `err`: 1 for a fault, 2 for words that the command does not take, 3 for a source, 4 for a
/// launch file, 5 for an access out of range, 6 for work-items that part at a barrier, 7 for more
/// loop iterations than the launch's turns, 8 for want of memory, which may come at each step before
/// the launches run, and 9 for a file that is not there. `plan` and `code` read and compile as `run`
/// does and put a text on `out`; `sample` runs a stored launch and puts the sum of its words there.
/// `build SOURCE LAUNCH OBJECT [--lanes N]` saves the kernel of the first launch, compiled, as an
/// object file; `exec OBJECT LAUNCH [--turns N]` runs the launches, all of which name that kernel, as
/// `run` does, where status 3 is for an object file that holds no object. `run SOURCE LAUNCH --cache`
/// runs the object of the entry that a cache file has for a kernel, its source, its lanes and the
/// numbers given for names, and else compiles it and keeps its entry behind the buffers.
pub fn wgcc<S: Store, O: Sink, E: Sink>(
    alloc: Global,
    words: &[String],
    store: &mut S,
    out: &mut O,
    err: &mut E,
) -> u8
    // What a user may rely on, on the model alone: no pass behind the typed program is reached from
    // `Promised`.
    ensures promise { Promised links (map string_bytes words.now)
        (outside S.files S.faults S.misses O.written O.faults E.written E.faults store.old out.old err.old)
        (outside S.files S.faults S.misses O.written O.faults E.written E.faults store.new out.new err.new)
        result }

    // How a command ends, with its cause, its files and its lines, and the group programs that ran.
    ensures ends { (request : Request) → AreWords (map string_bytes words.now) request → EndsAsked
        (outside S.files S.faults S.misses O.written O.faults E.written E.faults store.old out.old err.old)
        (outside S.files S.faults S.misses O.written O.faults E.written E.faults store.new out.new err.new)
        request result }

    // What is proved of each typed unit of a source and of each faulty one: the unit without vectors
    // that stands for its unit is what it should be, and each vector statement does its steps. The
    // numbers given for names are to be below 2^63, as those of each launch file are from which
    // something ran, was shown or built, or was refused for its source: fields `fit` of `ends`.
    ensures vectors { FormsHold }

    // Of each kernel of an accepted source, whatever a run of it ends with: what is kept once for a
    // work-group has equal values in all its work-items.
    ensures once { (source : List ℕ) (defines : List Define) (kernel : List ℕ) (unit : Unit') →
        DefinesFit defines → HasTypedUnit source defines kernel unit → KeepsOnceIn unit }

    // Words that the command does not take.
    ensures usage { (TakesWords (map string_bytes words.now) → ⊥) → (result ≡ 2) ⊎ (result ≡ 8) }
    ensures usage_only { result ≡ 2 → TakesWords (map string_bytes words.now) → ⊥ }
    ensures usage_line { result ≡ 2 → EndsSaying
        (outside S.files S.faults S.misses O.written O.faults E.written E.faults store.old out.old err.old)
        (outside S.files S.faults S.misses O.written O.faults E.written E.faults store.new out.new err.new)
        usage_line }

    // Words that ask for nothing: nothing happens but one line.
    ensures unread { ((request : Request) → AreWords (map string_bytes words.now) request → ⊥) → EndsUnasked
        (outside S.files S.faults S.misses O.written O.faults E.written E.faults store.old out.old err.old)
        (outside S.files S.faults S.misses O.written O.faults E.written E.faults store.new out.new err.new)
        result }

    // What each status says.
    ensures failed { result ≡ 1 → Rose (S.faults store.old) (S.faults store.new) ⊎
        Rose (O.faults out.old) (O.faults out.new) }
    ensures absent { result ≡ 9 → Rose (S.misses store.old) (S.misses store.new) }
    ensures looped { (ask : Files) → AreWords (map string_bytes words.now) (run ask) → result ≡ 7 →
        HasLoops (S.files store.old) ask }
    ensures no_save { (result ≡ 0 → ⊥) → (result ≡ 1 → ⊥) → S.files store.new ≡ S.files store.old }
    ensures quiet { result ≡ 0 → sink_standing E.written E.faults err.new ≡
        sink_standing E.written E.faults err.old }
    ensures line { (result ≡ 0 → ⊥) →
        SaysLine (sink_standing E.written E.faults err.old) (sink_standing E.written E.faults err.new) }
    ensures out { (result ≡ 0 → ⊥) →
        KeepsOut (sink_standing O.written O.faults out.old) (sink_standing O.written O.faults out.new) }

    // What must come where the store tells its files and no fault rises, want of memory aside; the
    // sample's store is its own.
    ensures complete { (request : Request) → AreWords (map string_bytes words.now) request →
        AcceptedFor (S.files store.old) request →
        NoStoreFault request (S.faults store.old) (S.faults store.new) →
        (Rose (O.faults out.old) (O.faults out.new) → ⊥) →
        (result ≡ 0) ⊎ (result ≡ 8) }
    ensures exact { (request : Request) (error : RunError) → AreWords (map string_bytes words.now) request →
        FindsFor (S.files store.old) request error →
        NoStoreFault request (S.faults store.old) (S.faults store.new) → (result ≡ status_of error) ⊎
        (result ≡ 8) }

    // Where no interleaving of any launch races, faults, parts or begins more iterations than the
    // turns: what every interleaving leaves is saved.
    ensures clean { (ask : Files) (text : Text) (units : List Unit') →
        AreWords (map string_bytes words.now) (run ask) →
        AcceptedClean (S.files store.old) ask text units →
        (Rose (S.faults store.old) (S.faults store.new) → ⊥) →
        (Rose (O.faults out.old) (O.faults out.new) → ⊥) →
        EndsClean (S.files store.old) (S.files store.new) text units result }

    // Where a source is compiled to the object that is run: what `run` does with that source.
    ensures built { (ask : ObjectFiles) → AreWords (map string_bytes words.now) (exec ask) → IsExecOfSource
        (outside S.files S.faults S.misses O.written O.faults E.written E.faults store.old out.old err.old)
        (outside S.files S.faults S.misses O.written O.faults E.written E.faults store.new out.new err.new)
        ask result }

    // Where the files are told and each cache file among them is honest: what `run` does without the
    // cache, and they stay honest.
    ensures cached { (ask : Files) → AreWords (map string_bytes words.now) (cached ask) →
        is_some (S.files store.old) ≡ true → Honest (S.files store.old) → WithHonestFiles
        (outside S.files S.faults S.misses O.written O.faults E.written E.faults store.old out.old err.old)
        (outside S.files S.faults S.misses O.written O.faults E.written E.faults store.new out.new err.new)
        ask result }
{
    match read_words(alloc, words) {
        Ok(asked) => do_words(alloc, asked, store, out, err),
        Err(WordsError::Usage) => {
            lines::say_usage(err);
            2
        }
        Err(WordsError::Memory) => {
            lines::say_error(err, "", &RunError::Memory);
            8
        }
    }
}
