// Object files: `build` saves one, and `exec` runs one.
ghost use Rattle.std.specs.Prelude.{◌≡◌, ◌≤◌, ℕ, List, Bool, false, true, All, IsTrue, ◌↔◌, IfOk, IfErr};
ghost use Rattle.std.specs.Prelude.{map, sum};
ghost use Rattle.wg_num.specs.Operators.{lanes_of};
ghost use Rattle.cl_tree.specs.Selections.{has_selection};
ghost use Rattle.cl_tree.specs.Syntax.{view};
ghost use Rattle.cl_prep.specs.declared.prep.Define.{Define};
ghost use Rattle.cl_meaning.specs.View.{unit_of};
ghost use Rattle.cl_front.specs.Front.{IsScalarSource};
ghost use Rattle.cl_front.specs.Typed.{places_of};
ghost use Rattle.cl_model.specs.Lists.{Each};
ghost use Rattle.command_words.specs.Command.{build_of, object_of as files_of};
ghost use Rattle.launch_file.specs.Texts.{text_of};
ghost use Rattle.launch_file.specs.Values.{HasNumber};
ghost use Rattle.wg_object.specs.View.{object_of};
ghost use Rattle.wg_top.specs.Causes.{standing, HasNoFewer};
ghost use Rattle.wg_top.specs.Given.{IsText, RefusedFrom};
ghost use Rattle.wg_top.specs.Stages.{KernelCause};
ghost use Rattle.wg_top.specs.Units.{needs_in};
ghost use Rattle.wg_top.specs.Programs.{AreRun, RunsCause, RunsLeave};
ghost use Rattle.wg_top.specs.CompiledObjects.{CompilesTo, IsTextFrom, IsFirstText, IsMadeText};
ghost use Rattle.wg_top.specs.CompiledObjects.{IsBuilt, ExecTaken, ExecDone, ExecCause};
ghost use Rattle.wg_top.specs.CompiledObjects.{ExecLeaves, TakingCause, runs_each, BuildLeaves};
ghost use Rattle.wg_top.specs.Objects.{FirstCause, BuildCause};

use crate::programs::{compile_alone, refused};
use crate::reading::{Options, load_launch, load_source};
use crate::run::run_runnables;
use crate::runnable::Runnable;
use crate::{RunError, Summary};
use cl_front::{Source, read_source};
use cl_model::Program;
use command_words::{BuildWords, ObjectWords};
use lane_code::GroupProgram;
use launch_file::{LaunchPart, LaunchText, Refusal};
use launch_file_bind::needs;
use std::alloc::Global;
use wg_compile::Compiled;
use wg_num::{Memory, Width, Word, push};
use wg_object::{DecodeError, Object, decode, encode, shell};
use wg_outside::{Failed, LoadError, Store};

// How many bytes of an object file are loaded: all that there can be.
const OBJECT_MOST: u64 = 18_446_744_073_709_551_615;

// Whether the numbers are together so many.
fn are_together(numbers: &[u64], total: u64) -> bool
    ensures { result ≡ true → sum numbers.now ≡ total }
{
    let mut left = total;
    for n in numbers {
        if left < *n {
            return false;
        }
        left -= *n;
    }
    left == 0
}

// The object of a compiled kernel. `Memory` also where its arrays have more bytes than an object may
// have, or its local arrays others than its program's kernel declares.
fn object_for(alloc: Global, compiled: Compiled) -> Result<Object, Memory>
    ensures group { IfOk result (λ o. o.group ≡ compiled.group) }
    ensures sizes { IfOk result (λ o. o.sizes ≡ (needs_in (unit_of compiled.program)).required) }
    ensures bytes { IfOk result (λ o. sum o.group.locals.items ≡
        (needs_in (unit_of compiled.program)).local_bytes) }
{
    let asked = needs(alloc, &compiled.program)?;
    if !are_together(&compiled.group.locals, asked.local_bytes) {
        return Err(Memory);
    }
    match Object::new(compiled.group, asked.required) {
        Some(object) => Ok(object),
        None => Err(Memory),
    }
}

/// The object of the kernel with that name.
pub(crate) fn object_of_kernel(
    alloc: Global,
    source: &Source,
    kernel: &Word,
    width: Width,
) -> Result<Object, RunError>
    requires selections { has_selection (view source.now.unit) ≡ false }
    ensures ok { IfOk result (λ o. (bytes : List ℕ) (defines : List Define) → All HasNumber defines →
        IsScalarSource bytes defines source.now.tokens.items (view source.now.unit) →
        source.now.places.items ≡ places_of bytes source.now.tokens.items →
        CompilesTo bytes defines kernel.now (lanes_of width) (object_of o)) }
    ensures err { IfErr result (λ e. RefusedFrom source.now (λ bytes defines. KernelCause bytes defines kernel.now e)) }
{
    let compiled = match compile_alone(alloc, source, kernel, width) {
        Ok(compiled) => compiled,
        Err(error) => return Err(error),
    };
    match object_for(alloc, compiled) {
        Ok(object) => Ok(object),
        Err(Memory) => Err(RunError::Memory),
    }
}

// The text of the object of the kernel with that name.
fn kernel_text(
    alloc: Global,
    source: &Source,
    kernel: &Word,
    width: Width,
) -> Result<Vec<u8>, RunError>
    requires selections { has_selection (view source.now.unit) ≡ false }
    ensures ok { IfOk result (λ v. (bytes : List ℕ) (defines : List Define) → All HasNumber defines →
        IsScalarSource bytes defines source.now.tokens.items (view source.now.unit) →
        source.now.places.items ≡ places_of bytes source.now.tokens.items →
        IsTextFrom bytes defines kernel.now (lanes_of width) v.items) }
    ensures err { IfErr result (λ e. RefusedFrom source.now (λ bytes defines. KernelCause bytes defines kernel.now e)) }
{
    match object_of_kernel(alloc, source, kernel, width) {
        Ok(object) => match encode(alloc, &object) {
            Ok(text) => Ok(text),
            Err(Memory) => Err(RunError::Memory),
        },
        Err(error) => Err(error),
    }
}

// The text of the object of the first launch's kernel.
fn first_text(alloc: Global, bytes: &[u8], text: &LaunchText) -> Result<Vec<u8>, RunError>
    requires { IsText text.now }
    ensures ok { IfOk result (λ v. IsFirstText bytes.now (text_of text.now) v.items) }
    ensures err { IfErr result (FirstCause bytes.now (text_of text.now)) }
{
    match read_source(alloc, bytes, &text.defines) {
        Ok(source) => kernel_text(alloc, &source, &text.list[0].kernel, text.lanes),
        Err(error) => Err(refused(error)),
    }
}

// Loads the source and the launch file, and compiles the kernel of the first launch.
fn text_for<S: Store>(alloc: Global, store: &mut S, files: BuildWords) -> Result<Vec<u8>, RunError>
    ensures ok { IfOk result (λ v. IsMadeText (S.files store.old) (build_of files.entry) v.items) }
    ensures err { IfErr result (BuildCause (standing S.files S.faults S.misses store.old)
        (standing S.files S.faults S.misses store.new) (build_of files.entry)) }
    ensures files_stay { S.files store.new ≡ S.files store.old }
    ensures stands { HasNoFewer (standing S.files S.faults S.misses store.old)
        (standing S.files S.faults S.misses store.new) }
{
    let bytes = match load_source(alloc, store, files.source) {
        Ok(bytes) => bytes,
        Err(error) => return Err(error),
    };
    let options = Options {
        lanes: files.lanes,
        turns: None,
    };
    let text = match load_launch(alloc, store, files.launch, options) {
        Ok(text) => text,
        Err(error) => return Err(error),
    };
    first_text(alloc, &bytes, &text)
}

/// Compiles the kernel of the first launch and saves it as an object file.
pub(crate) fn build_source<S: Store>(
    alloc: Global,
    store: &mut S,
    files: BuildWords,
) -> Result<(), RunError>
    ensures ok { IfOk result (λ _. IsBuilt (S.files store.old) (S.files store.new) (build_of files.entry)) }
    ensures err { IfErr result (BuildCause (standing S.files S.faults S.misses store.old)
        (standing S.files S.faults S.misses store.new) (build_of files.entry)) }
    ensures left { IfErr result (BuildLeaves (standing S.files S.faults S.misses store.old)
        (standing S.files S.faults S.misses store.new) (build_of files.entry)) }
{
    let text = match text_for(alloc, store, files) {
        Ok(text) => text,
        Err(error) => return Err(error),
    };
    match store.save(files.object, &text) {
        Ok(()) => Ok(()),
        Err(Failed) => Err(RunError::Failed),
    }
}

// An object, and a launch file whose launches all name its kernel.
#[derive(Drop)]
struct Taken {
    text: LaunchText,
    object: Object,
}

// Whether the launch names that kernel.
fn is_named(part: &LaunchPart, kernel: &Word) -> bool
    ensures { IsTrue result ↔ (part.now.kernel ≡ kernel.now) }
{
    part.kernel.bytes() == kernel.bytes()
}

// Whether all launches name that kernel.
fn all_name(kernel: &Word, list: &[LaunchPart]) -> bool
    ensures { IsTrue result ↔ Each (λ p. p.kernel ≡ kernel.now) list.now }
{
    for part in list {
        if !is_named(part, kernel) {
            return false;
        }
    }
    true
}

// Loads the object file and the launch file.
fn take_object<S: Store>(
    alloc: Global,
    store: &mut S,
    files: ObjectWords,
) -> Result<Taken, RunError>
    ensures ok { IfOk result (λ t. ExecTaken (S.files store.old) (files_of files.entry) (text_of t.text)
        (object_of t.object)) }
    ensures is { IfOk result (λ t. IsText t.text) }
    ensures err { IfErr result (TakingCause (standing S.files S.faults S.misses store.old)
        (standing S.files S.faults S.misses store.new) (files_of files.entry)) }
    ensures files_stay { S.files store.new ≡ S.files store.old }
    ensures stands { HasNoFewer (standing S.files S.faults S.misses store.old)
        (standing S.files S.faults S.misses store.new) }
{
    let bytes = match store.load(alloc, files.object, OBJECT_MOST) {
        Ok(bytes) => bytes,
        Err(LoadError::Absent) => return Err(RunError::Absent),
        Err(LoadError::Failed) => return Err(RunError::Failed),
        Err(LoadError::Memory) => return Err(RunError::Memory),
    };
    let options = Options {
        lanes: None,
        turns: files.turns,
    };
    let text = match load_launch(alloc, store, files.launch, options) {
        Ok(text) => text,
        Err(error) => return Err(error),
    };
    match decode(alloc, &bytes) {
        Ok(object) => {
            if all_name(&object.group.kernel, &text.list) {
                Ok(Taken { text, object })
            } else {
                Err(RunError::Launch {
                    refusal: Refusal::OtherKernel,
                })
            }
        }
        Err(DecodeError::NotObject) => Err(RunError::NotObject),
        Err(DecodeError::Memory) => Err(RunError::Memory),
    }
}

// The two for each launch.
fn one_each<'k>(
    alloc: Global,
    program: &'k Program,
    group: &'k GroupProgram,
    list: &[LaunchPart],
) -> Result<Vec<Runnable<'k>>, Memory>
    ensures programs { IfOk result (λ v. map (λ r. r.program.now) v.items ≡ map (λ p. program.now) list.now) }
    ensures groups { IfOk result (λ v. map (λ r. r.group.now) v.items ≡ map (λ p. group.now) list.now) }
{
    let mut each = Vec::new(alloc);
    for _part in list {
        push(&mut each, Runnable { program, group })?;
    }
    Ok(each)
}

// Runs the launches, all with the object's program.
fn run_taken<S: Store>(alloc: Global, store: &mut S, taken: Taken) -> Result<Summary, RunError>
    requires { IsText taken.text }
    ensures ok { IfOk result (AreRun (S.files store.old) (S.files store.new) (text_of taken.text)
        (runs_each (object_of taken.object) (text_of taken.text).list)) }
    ensures err { IfErr result (RunsCause (standing S.files S.faults S.misses store.old)
        (standing S.files S.faults S.misses store.new) (text_of taken.text)
        (runs_each (object_of taken.object) (text_of taken.text).list)) }
    ensures left { IfErr result (RunsLeave (standing S.files S.faults S.misses store.old)
        (standing S.files S.faults S.misses store.new) (text_of taken.text)
        (runs_each (object_of taken.object) (text_of taken.text).list)) }
    ensures stands { HasNoFewer (standing S.files S.faults S.misses store.old)
        (standing S.files S.faults S.misses store.new) }
{
    let Taken { text, object } = taken;
    let program = match shell(alloc, &object) {
        Ok(program) => program,
        Err(Memory) => return Err(RunError::Memory),
    };
    match one_each(alloc, &program, &object.group, &text.list) {
        Ok(runnables) => run_runnables(alloc, store, &runnables, &text),
        Err(Memory) => Err(RunError::Memory),
    }
}

/// Runs the launches of the launch file with the object, from their files to their files.
pub(crate) fn exec_object<S: Store>(
    alloc: Global,
    store: &mut S,
    files: ObjectWords,
) -> Result<Summary, RunError>
    ensures ok { IfOk result (ExecDone (S.files store.old) (S.files store.new) (files_of files.entry)) }
    ensures err { IfErr result (ExecCause (standing S.files S.faults S.misses store.old)
        (standing S.files S.faults S.misses store.new) (files_of files.entry)) }
    ensures left { IfErr result (ExecLeaves (standing S.files S.faults S.misses store.old)
        (standing S.files S.faults S.misses store.new) (files_of files.entry)) }
{
    match take_object(alloc, store, files) {
        Ok(taken) => run_taken(alloc, store, taken),
        Err(error) => Err(error),
    }
}
