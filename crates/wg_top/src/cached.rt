// A run with the compile cache: each kernel is the one that its cache file has an entry of, or is compiled and kept.
ghost use Rattle.std.specs.Prelude.{◌≡◌, ◌↔◌, All, Contains, IfSome, IfOk, IfErr, MatchOption, OnOk, OnErr};
ghost use Rattle.std.specs.Prelude.{ℕ, List, IsUtf8, [], true, false, IsTrue, IsSomeAnd};
ghost use Rattle.cl_model.specs.Lists.{Each};
ghost use Rattle.command_words.specs.Command.{files_of};
ghost use Rattle.launch_file.specs.Texts.{text_of};
ghost use Rattle.wg_object.specs.Shell.{IsShell};
ghost use Rattle.wg_object.specs.View.{object_of};
ghost use Rattle.wg_outside.specs.Counts.{Rose};
ghost use Rattle.wg_top.specs.Causes.{standing, HasNoFewer, NoCacheName};
ghost use Rattle.wg_top.specs.Given.{IsText, IsReadFrom};
ghost use Rattle.wg_top.specs.Stages.{TypedCause};
ghost use Rattle.wg_top.specs.CompiledObjects.{CompilesTo};
ghost use Rattle.wg_top.specs.Cached.{CachedDone, CachedCause, CachedLeaves};
ghost use Rattle.wg_top.specs.Holding.{HasObject, IsHeld, IsNamedIn, AreRunnables, HoldCause};
ghost use Rattle.wg_top.specs.Holding.{HoldingCause, IsHeldOnce, IsSavedSo, kept_with, kept_of};
ghost use Rattle.wg_top.specs.Holding.{AreSaved, AreSavedUpTo, HeldDone, HeldCause, HeldLeaves};

use crate::launches::bind_each;
use crate::objects::object_of_kernel;
use crate::programs::refused;
use crate::reading::{Options, load_launch, load_source};
use crate::run::run_programs;
use crate::runnable::Runnable;
use crate::{RunError, Summary};
use cl_front::{Source, read_source};
use cl_model::Program;
use command_words::FileWords;
use launch_file::{BufferText, LaunchPart, LaunchText, Refusal};
use std::alloc::Global;
use wg_cache::{Entry, entry, find, is_cache_name, keep, key};
use wg_num::{Memory, Word, push};
use wg_object::{Object, shell};
use wg_outside::{Failed, LoadError, Store};

// An object, and its entry where it was compiled.
#[derive(Drop)]
struct Taken {
    object: Object,
    entry: Option<Entry>,
}

/// A kernel that launches name: its object, the object's shell, and its entry where it was compiled.
#[derive(Drop)]
pub(crate) struct Held<'t> {
    pub(crate) kernel: &'t Word,
    pub(crate) object: Object,
    pub(crate) shell: Program,
    pub(crate) entry: Option<Entry>,
}

// Reads the source, where it was not read yet.
fn read_once(
    alloc: Global,
    bytes: &[u8],
    text: &LaunchText,
    read: &mut Option<Source>,
) -> Result<(), RunError>
    requires { IfSome read.old (IsReadFrom bytes.now (text_of text.now).defines) }
    ensures ok { OnOk result (IsSomeAnd read.new (IsReadFrom bytes.now (text_of text.now).defines)) }
    ensures err { IfErr result (λ e. (kernel : List ℕ) →
        TypedCause bytes.now (text_of text.now).defines kernel e) }
    ensures read { IfSome read.new (IsReadFrom bytes.now (text_of text.now).defines) }
{
    match read {
        Some(_) => Ok(()),
        None => match read_source(alloc, bytes, &text.defines) {
            Ok(source) => {
                *read = Some(source);
                Ok(())
            }
            Err(error) => Err(refused(error)),
        },
    }
}

// The object of the kernel with that name, compiled from the source, which is read where it was not yet.
fn compile_object(
    alloc: Global,
    bytes: &[u8],
    text: &LaunchText,
    kernel: &Word,
    read: &mut Option<Source>,
) -> Result<Object, RunError>
    requires text { IsText text.now }
    requires read { IfSome read.old (IsReadFrom bytes.now (text_of text.now).defines) }
    ensures ok { IfOk result (λ o.
        CompilesTo bytes.now (text_of text.now).defines kernel.now (text_of text.now).lanes (object_of o)) }
    ensures err { IfErr result (TypedCause bytes.now (text_of text.now).defines kernel.now) }
    ensures read { IfSome read.new (IsReadFrom bytes.now (text_of text.now).defines) }
{
    match read_once(alloc, bytes, text, read) {
        Ok(()) => {}
        Err(error) => return Err(error),
    }
    match read {
        Some(source) => object_of_kernel(alloc, source, kernel, text.lanes),
        None => unreachable!(),
    }
}

// The object that the cache has for the kernel with that name, or that it is compiled to.
fn take_kernel<S: Store>(
    alloc: Global,
    store: &mut S,
    bytes: &[u8],
    text: &LaunchText,
    kernel: &Word,
    read: &mut Option<Source>,
) -> Result<Taken, RunError>
    requires text { IsText text.now }
    requires read { IfSome read.old (IsReadFrom bytes.now (text_of text.now).defines) }
    ensures ok { IfOk result (λ t. HasObject (S.files store.old) bytes.now (text_of text.now) kernel.now
        (object_of t.object) t.entry) }
    ensures err { IfErr result (HoldCause (standing S.files S.faults S.misses store.old)
        (standing S.files S.faults S.misses store.new) bytes.now (text_of text.now) kernel.now) }
    ensures read { IfSome read.new (IsReadFrom bytes.now (text_of text.now).defines) }
    ensures files_stay { S.files store.new ≡ S.files store.old }
    ensures stands { HasNoFewer (standing S.files S.faults S.misses store.old)
        (standing S.files S.faults S.misses store.new) }
{
    let key = match key(alloc, bytes, &text.defines, kernel, text.lanes) {
        Ok(key) => key,
        Err(Memory) => return Err(RunError::Memory),
    };
    match find(alloc, store, &key) {
        Ok(Some(object)) => Ok(Taken {
            object,
            entry: None,
        }),
        Ok(None) => {
            let object = match compile_object(alloc, bytes, text, kernel, read) {
                Ok(object) => object,
                Err(error) => return Err(error),
            };
            match entry(alloc, &key, &object) {
                Ok(entry) => Ok(Taken {
                    object,
                    entry: Some(entry),
                }),
                Err(Memory) => Err(RunError::Memory),
            }
        }
        Err(LoadError::Absent) => unreachable!(),
        Err(LoadError::Failed) => Err(RunError::Failed),
        Err(LoadError::Memory) => Err(RunError::Memory),
    }
}

// The same with the object's shell.
fn hold_kernel<'t, S: Store>(
    alloc: Global,
    store: &mut S,
    bytes: &[u8],
    text: &LaunchText,
    kernel: &'t Word,
    read: &mut Option<Source>,
) -> Result<Held<'t>, RunError>
    requires text { IsText text.now }
    requires read { IfSome read.old (IsReadFrom bytes.now (text_of text.now).defines) }
    ensures kernel { IfOk result (λ h. h.kernel.now ≡ kernel.now) }
    ensures has { IfOk result (λ h. HasObject (S.files store.old) bytes.now (text_of text.now) kernel.now
        (object_of h.object) h.entry) }
    ensures shell { IfOk result (λ h. IsShell (object_of h.object) h.shell) }
    ensures err { IfErr result (HoldCause (standing S.files S.faults S.misses store.old)
        (standing S.files S.faults S.misses store.new) bytes.now (text_of text.now) kernel.now) }
    ensures read { IfSome read.new (IsReadFrom bytes.now (text_of text.now).defines) }
    ensures files_stay { S.files store.new ≡ S.files store.old }
    ensures stands { HasNoFewer (standing S.files S.faults S.misses store.old)
        (standing S.files S.faults S.misses store.new) }
{
    let Taken { object, entry } = match take_kernel(alloc, store, bytes, text, kernel, read) {
        Ok(taken) => taken,
        Err(error) => return Err(error),
    };
    match shell(alloc, &object) {
        Ok(shell) => Ok(Held {
            kernel,
            object,
            shell,
            entry,
        }),
        Err(Memory) => Err(RunError::Memory),
    }
}

// The one that has that name.
fn held_for<'h, 't>(held: &'h [Held<'t>], kernel: &Word) -> Option<&'h Held<'t>>
    ensures { MatchOption result (IsNamedIn held.now kernel.now → ⊥)
        (λ one. Contains held.now one.now × (one.now.kernel.now ≡ kernel.now)) }
{
    for one in held {
        if one.kernel.bytes() == kernel.bytes() {
            return Some(one);
        }
    }
    None
}

// The same behind others, where none of them has that name.
fn hold_once<'t, S: Store>(
    alloc: Global,
    store: &mut S,
    bytes: &[u8],
    text: &LaunchText,
    kernel: &'t Word,
    read: &mut Option<Source>,
    held: &mut Vec<Held<'t>>,
) -> Result<(), RunError>
    requires text { IsText text.now }
    requires read { IfSome read.old (IsReadFrom bytes.now (text_of text.now).defines) }
    ensures held { OnOk result (IsHeldOnce (S.files store.old) bytes.now (text_of text.now) kernel.now
        held.old.items held.new.items) }
    ensures err { IfErr result (HoldCause (standing S.files S.faults S.misses store.old)
        (standing S.files S.faults S.misses store.new) bytes.now (text_of text.now) kernel.now) }
    ensures read { IfSome read.new (IsReadFrom bytes.now (text_of text.now).defines) }
    ensures files_stay { S.files store.new ≡ S.files store.old }
    ensures stands { HasNoFewer (standing S.files S.faults S.misses store.old)
        (standing S.files S.faults S.misses store.new) }
{
    match held_for(held, kernel) {
        Some(_) => Ok(()),
        None => match hold_kernel(alloc, store, bytes, text, kernel, read) {
            Ok(one) => match push(held, one) {
                Ok(()) => Ok(()),
                Err(Memory) => Err(RunError::Memory),
            },
            Err(error) => Err(error),
        },
    }
}

// The kernels that the launches name, each name once, in the order of their first launches.
fn hold_all<'t, S: Store>(
    alloc: Global,
    store: &mut S,
    bytes: &[u8],
    text: &'t LaunchText,
) -> Result<Vec<Held<'t>>, RunError>
    requires { IsText text.now }
    ensures ok { IfOk result (λ v. All (IsHeld (S.files store.old) bytes.now (text_of text.now)) v.items) }
    ensures named { IfOk result (λ v. Each (λ p. IsNamedIn v.items p.kernel) text.now.list.items) }
    ensures err { IfErr result (HoldingCause (standing S.files S.faults S.misses store.old)
        (standing S.files S.faults S.misses store.new) bytes.now (text_of text.now)) }
    ensures files_stay { S.files store.new ≡ S.files store.old }
    ensures stands { HasNoFewer (standing S.files S.faults S.misses store.old)
        (standing S.files S.faults S.misses store.new) }
{
    let mut read = None;
    let mut held = Vec::new(alloc);
    for part in &text.list {
        match hold_once(
            alloc,
            store,
            bytes,
            text,
            &part.kernel,
            &mut read,
            &mut held,
        ) {
            Ok(()) => {}
            Err(error) => return Err(error),
        }
    }
    Ok(held)
}

// What is bound and run of a kernel.
fn runnable_of<'h>(one: &'h Held<'_>) -> Runnable<'h>
    ensures program { result.program.now ≡ one.now.shell }
    ensures group { result.group.now ≡ one.now.object.group }
{
    Runnable {
        program: &one.shell,
        group: &one.object.group,
    }
}

// What is bound and run for each launch.
fn runnables_of<'h>(
    alloc: Global,
    held: &'h [Held<'_>],
    list: &[LaunchPart],
) -> Result<Vec<Runnable<'h>>, Memory>
    requires { Each (λ p. IsNamedIn held.now p.kernel) list.now }
    ensures { IfOk result (λ v. AreRunnables held.now list.now v.items) }
{
    let mut runnables = Vec::new(alloc);
    for part in list {
        match held_for(held, &part.kernel) {
            Some(one) => push(&mut runnables, runnable_of(one))?,
            None => unreachable!(),
        }
    }
    Ok(runnables)
}

// Whether a buffer is saved under a name that begins as those of cache files do.
fn is_saved_so(buffer: &BufferText) -> bool
    ensures { IsTrue result ↔ IsSavedSo buffer.now.save }
{
    match &buffer.save {
        Some(name) => is_cache_name(name),
        None => false,
    }
}

// Whether one of the buffers is.
fn has_cache_name(buffers: &[BufferText]) -> bool
    ensures plain { result ≡ false → NoCacheName buffers.now }
    ensures named { result ≡ true → NoCacheName buffers.now → ⊥ }
{
    for buffer in buffers {
        if is_saved_so(buffer) {
            return true;
        }
    }
    false
}

// Saves the entry of a kernel, if it was compiled.
fn keep_one<S: Store>(store: &mut S, entry: &Option<Entry>) -> Result<(), Failed>
    requires { IfSome entry.now (λ e. IsUtf8 e.name) }
    ensures saved { OnOk result (AreSaved (S.files store.old) (S.files store.new) (kept_with entry.now [])) }
    ensures stopped { OnErr result (AreSavedUpTo (S.files store.old) (S.files store.new) (kept_with entry.now [])) }
    ensures failed { OnErr result (Rose (S.faults store.old) (S.faults store.new)) }
    ensures stands { HasNoFewer (standing S.files S.faults S.misses store.old)
        (standing S.files S.faults S.misses store.new) }
{
    match entry {
        Some(entry) => match keep(store, entry) {
            Ok(()) => Ok(()),
            Err(Failed) => Err(Failed),
        },
        None => Ok(()),
    }
}

// Saves the entries of the kernels that were compiled.
fn keep_all<S: Store>(store: &mut S, held: &[Held<'_>]) -> Result<(), Failed>
    requires { All (λ h. IfSome h.entry (λ e. IsUtf8 e.name)) held.now }
    ensures saved { OnOk result (AreSaved (S.files store.old) (S.files store.new) (kept_of held.now)) }
    ensures stopped { OnErr result (AreSavedUpTo (S.files store.old) (S.files store.new) (kept_of held.now)) }
    ensures failed { OnErr result (Rose (S.faults store.old) (S.faults store.new)) }
    ensures stands { HasNoFewer (standing S.files S.faults S.misses store.old)
        (standing S.files S.faults S.misses store.new) }
{
    for one in held {
        match keep_one(store, &one.entry) {
            Ok(()) => {}
            Err(Failed) => return Err(Failed),
        }
    }
    Ok(())
}

// Binds and runs the launches from their files to their files, and keeps the entries.
fn run_held<S: Store>(
    alloc: Global,
    store: &mut S,
    text: &LaunchText,
    held: &[Held<'_>],
) -> Result<Summary, RunError>
    requires text { IsText text.now }
    requires named { Each (λ p. IsNamedIn held.now p.kernel) text.now.list.items }
    requires shells { All (λ h. IsShell (object_of h.object) h.shell) held.now }
    requires names { All (λ h. IfSome h.entry (λ e. IsUtf8 e.name)) held.now }
    ensures ok { IfOk result (HeldDone (S.files store.old) (S.files store.new) (text_of text.now) held.now) }
    ensures err { IfErr result (HeldCause (standing S.files S.faults S.misses store.old)
        (standing S.files S.faults S.misses store.new) (text_of text.now) held.now) }
    ensures left { IfErr result (HeldLeaves (standing S.files S.faults S.misses store.old)
        (standing S.files S.faults S.misses store.new) (text_of text.now) held.now) }
    ensures stands { HasNoFewer (standing S.files S.faults S.misses store.old)
        (standing S.files S.faults S.misses store.new) }
{
    let runnables = match runnables_of(alloc, held, &text.list) {
        Ok(runnables) => runnables,
        Err(Memory) => return Err(RunError::Memory),
    };
    let launches = match bind_each(alloc, &runnables, text) {
        Ok(launches) => launches,
        Err(error) => return Err(error),
    };
    if has_cache_name(&text.buffers) {
        return Err(RunError::Launch {
            refusal: Refusal::SavedUnderCacheName,
        });
    }
    let summary = match run_programs(alloc, store, &runnables, text, launches) {
        Ok(summary) => summary,
        Err(error) => return Err(error),
    };
    match keep_all(store, held) {
        Ok(()) => Ok(summary),
        Err(Failed) => Err(RunError::Failed),
    }
}

/// Runs the launches as `run_source` does, with the kernels that the cache has, and keeps those that it has not.
pub(crate) fn run_cached<S: Store>(
    alloc: Global,
    store: &mut S,
    files: FileWords,
) -> Result<Summary, RunError>
    ensures ok { IfOk result (CachedDone (S.files store.old) (S.files store.new) (files_of files.entry)) }
    ensures err { IfErr result (CachedCause (standing S.files S.faults S.misses store.old)
        (standing S.files S.faults S.misses store.new) (files_of files.entry)) }
    ensures left { IfErr result (CachedLeaves (standing S.files S.faults S.misses store.old)
        (standing S.files S.faults S.misses store.new) (files_of files.entry)) }
{
    let bytes = match load_source(alloc, store, files.source) {
        Ok(bytes) => bytes,
        Err(error) => return Err(error),
    };
    let options = Options {
        lanes: files.lanes,
        turns: files.turns,
    };
    let text = match load_launch(alloc, store, files.launch, options) {
        Ok(text) => text,
        Err(error) => return Err(error),
    };
    match hold_all(alloc, store, &bytes, &text) {
        Ok(held) => run_held(alloc, store, &text, &held),
        Err(error) => Err(error),
    }
}
