// The kernels of a source, one for each launch; each name is compiled once.
ghost use Rattle.std.specs.Prelude.{◌≡◌, ℕ, false, List, All, IfOk, IfErr, map};
ghost use Rattle.wg_num.specs.Operators.{lanes_of};
ghost use Rattle.cl_tree.specs.Selections.{has_selection};
ghost use Rattle.cl_tree.specs.Syntax.{view};
ghost use Rattle.cl_prep.specs.declared.prep.Define.{Define};
ghost use Rattle.launch_file.specs.Texts.{Text, text_of, part_of};
ghost use Rattle.cl_front.specs.Front.{HasUnit, IsRefusal};
ghost use Rattle.cl_front.specs.Typed.{HasTypedUnit, IsUnitRefusal};
ghost use Rattle.wg_compile.specs.Correct.{IsCompilation};
ghost use Rattle.wg_top.specs.Units.{HaveTypedUnits};
ghost use Rattle.wg_top.specs.Given.{FromSource, RefusedFrom};
ghost use Rattle.wg_top.specs.Stages.{ProgramCause, KernelCause, KernelsCause};
ghost use Rattle.cl_meaning.specs.View.{unit_of};

use crate::RunError;
use crate::shared::SharedKernel;
use cl_front::{Source, SourceError, compile_kernel, read_source};
use launch_file::{LaunchPart, LaunchText};
use std::alloc::Global;
use wg_compile::{Compiled, compile_program};
use wg_num::{Memory, Width, Word};

/// The refusal of a run by that of its source.
pub(crate) fn refused(error: SourceError) -> RunError
    ensures source { (bytes : List ℕ) (text : Text) → IsRefusal bytes text.defines error →
        ProgramCause bytes text result }
    ensures kernel { (bytes : List ℕ) (defines : List Define) (kernel : List ℕ) →
        IsUnitRefusal bytes defines kernel error → KernelCause bytes defines kernel result }
{
    match error {
        SourceError::Refused { condition, place } => RunError::Source { condition, place },
        SourceError::Memory => RunError::Memory,
    }
}

/// The kernel of that name, compiled.
pub(crate) fn compile_alone(
    alloc: Global,
    source: &Source,
    kernel: &Word,
    width: Width,
) -> Result<Compiled, RunError>
    requires selections { has_selection (view source.now.unit) ≡ false }
    ensures compiled { IfOk result (λ c. FromSource source.now (λ bytes defines.
        HasTypedUnit bytes defines kernel.now (unit_of c.program))) }
    ensures passes { IfOk result (λ c. IsCompilation (lanes_of width) c) }
    ensures name { IfOk result (λ c. c.group.kernel ≡ kernel.now) }
    ensures err { IfErr result (λ e. RefusedFrom source.now (λ bytes defines. KernelCause bytes defines kernel.now e)) }
{
    match compile_kernel(alloc, source, kernel.bytes()) {
        Ok(program) => match compile_program(alloc, program, kernel, width) {
            Ok(compiled) => Ok(compiled),
            Err(Memory) => Err(RunError::Memory),
        },
        Err(error) => Err(refused(error)),
    }
}

// The same, for several launches.
fn compile_one(
    alloc: Global,
    source: &Source,
    kernel: &Word,
    width: Width,
) -> Result<SharedKernel, RunError>
    requires selections { has_selection (view source.now.unit) ≡ false }
    ensures compiled { IfOk result (λ c. FromSource source.now (λ bytes defines.
        HasTypedUnit bytes defines kernel.now (unit_of c.program))) }
    ensures passes { IfOk result (λ c. IsCompilation (lanes_of width) c) }
    ensures name { IfOk result (λ c. c.group.kernel ≡ kernel.now) }
    ensures err { IfErr result (λ e. RefusedFrom source.now (λ bytes defines. KernelCause bytes defines kernel.now e)) }
{
    match compile_alone(alloc, source, kernel, width) {
        Ok(compiled) => match SharedKernel::new(alloc, compiled) {
            Ok(compiled) => Ok(compiled),
            Err(Memory) => Err(RunError::Memory),
        },
        Err(error) => Err(error),
    }
}

// The kernel of that name: the one that an earlier launch has where it names the same, and else
// compiled.
fn kernel_for(
    alloc: Global,
    source: &Source,
    kernel: &Word,
    width: Width,
    earlier: &[SharedKernel],
) -> Result<SharedKernel, RunError>
    requires selections { has_selection (view source.now.unit) ≡ false }
    requires compiled { FromSource source.now (λ bytes defines.
        All (λ c. HasTypedUnit bytes defines c.group.kernel (unit_of c.program)) earlier.now) }
    requires passes { All (IsCompilation (lanes_of width)) earlier.now }
    ensures compiled { IfOk result (λ c. FromSource source.now (λ bytes defines.
        HasTypedUnit bytes defines kernel.now (unit_of c.program))) }
    ensures passes { IfOk result (λ c. IsCompilation (lanes_of width) c) }
    ensures name { IfOk result (λ c. c.group.kernel ≡ kernel.now) }
    ensures err { IfErr result (λ e. RefusedFrom source.now (λ bytes defines. KernelCause bytes defines kernel.now e)) }
{
    for other in earlier {
        if other.compiled().group.kernel.bytes() == kernel.bytes() {
            return match other.share() {
                Ok(compiled) => Ok(compiled),
                Err(Memory) => Err(RunError::Memory),
            };
        }
    }
    compile_one(alloc, source, kernel, width)
}

// The kernels, one for each launch.
fn compile_each(
    alloc: Global,
    source: &Source,
    list: &[LaunchPart],
    width: Width,
) -> Result<Vec<SharedKernel>, RunError>
    requires selections { has_selection (view source.now.unit) ≡ false }
    ensures compiled { IfOk result (λ v. FromSource source.now (λ bytes defines.
        HaveTypedUnits bytes defines (map part_of list.now) (map (λ c. unit_of c.program) v.items))) }
    ensures passes { IfOk result (λ v. All (IsCompilation (lanes_of width)) v.items) }
    ensures names { IfOk result (λ v. map (λ c. c.group.kernel) v.items ≡ map (λ p. p.kernel) list.now) }
    ensures err { IfErr result (λ e. RefusedFrom source.now (λ bytes defines.
        KernelsCause bytes defines (map part_of list.now) e)) }
{
    let mut kernels = Vec::new(alloc);
    for which in 0..list.len() {
        match kernel_for(alloc, source, &list[which].kernel, width, &kernels) {
            Ok(compiled) => {
                if kernels.push(compiled).is_err() {
                    return Err(RunError::Memory);
                }
            }
            Err(error) => return Err(error),
        }
    }
    Ok(kernels)
}

/// The kernels of a source, one for each launch, those of one name compiled once, or the first
/// refusal of the source: of its bytes, its macros and its grammar, then of each launch's kernel in
/// order.
pub(crate) fn compile_all(
    alloc: Global,
    bytes: &[u8],
    text: &LaunchText,
) -> Result<Vec<SharedKernel>, RunError>
    ensures unit { IfOk result (λ v. HasUnit bytes.now (text_of text.now).defines) }
    ensures compiled { IfOk result (λ v. HaveTypedUnits bytes.now (text_of text.now).defines (text_of text.now).list
        (map (λ c. unit_of c.program) v.items)) }
    ensures passes { IfOk result (λ v. All (IsCompilation (text_of text.now).lanes) v.items) }
    ensures names { IfOk result (λ v. map (λ c. c.group.kernel) v.items ≡
        map (λ p. p.kernel) (text_of text.now).list) }
    ensures err { IfErr result (ProgramCause bytes.now (text_of text.now)) }
{
    match read_source(alloc, bytes, &text.defines) {
        Ok(source) => compile_each(alloc, &source, &text.list, text.lanes),
        Err(error) => Err(refused(error)),
    }
}
