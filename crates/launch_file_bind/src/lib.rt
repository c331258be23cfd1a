//! The launches of a launch file, bound to the kernel of a typed program.
#![tactic(auto)]

ghost use Rattle.std.specs.Prelude.{◌≡◌, ◌<◌, All, IfOk, Err, Some, map, take, length};
ghost use Rattle.launch_file.specs.declared.text.LaunchError.TheVariants.{Refused};
ghost use Rattle.launch_file.specs.Binding as spec;
ghost use Rattle.launch_file.specs.NeedsView.{needs_of};
ghost use Rattle.launch_file.specs.Texts.{text_of, part_of};
ghost use Rattle.launch_file.specs.Values.{HasOneLength};
ghost use Rattle.launch_file_bind.specs.Needed.{needs_in, needs_of_kernel};
ghost use Rattle.cl_meaning.specs.View.{function_of};

use cl_limits::local_bytes;
use cl_model::{Function, Launch, Program, Var, VarKind};
use launch_file::{KernelNeeds, LaunchError, LaunchText, Refusal, bind_kernel};
use std::alloc::Global;
use wg_num::Memory;

// The first variables, so many.
fn first_of(vars: &[Var], count: usize) -> &[Var]
    ensures { result.now ≡ take count vars.now }
{
    if count < vars.len() {
        &vars[..count]
    } else {
        vars
    }
}

// The kinds of variables.
fn kinds_of(alloc: Global, vars: &[Var]) -> Result<Vec<VarKind>, Memory>
    ensures { IfOk result (λ v. v.items ≡ map (λ x. x.kind) vars.now) }
{
    let mut kinds = Vec::new(alloc);
    for var in vars {
        match kinds.push(var.kind) {
            Ok(()) => {}
            Err(_) => return Err(Memory),
        }
    }
    Ok(kinds)
}

// What a kernel asks.
fn needs_of(alloc: Global, kernel: &Function) -> Result<KernelNeeds, Memory>
    ensures { IfOk result (λ n. needs_of n ≡ needs_in (function_of kernel.now)) }
{
    let kinds = kinds_of(alloc, first_of(&kernel.vars, kernel.params as usize))?;
    Ok(KernelNeeds {
        kinds,
        local_bytes: local_bytes(kernel),
        required: kernel.sizes,
    })
}

/// What the kernel of a program asks of its launches: the kinds of its parameters, the bytes of
/// local memory that it declares (OpenCL 1.2, section 6.5.2), and the work-group size that it
/// requires (OpenCL 1.2, section 6.7.2).
pub fn needs(alloc: Global, program: &Program) -> Result<KernelNeeds, Memory>
    ensures { IfOk result (λ n. needs_of n ≡ needs_of_kernel (map function_of program.now.functions.items)
        program.now.kernel) }
{
    match program.functions.get(program.kernel as usize) {
        Some(kernel) => needs_of(alloc, kernel),
        None => Ok(KernelNeeds {
            kinds: Vec::new(alloc),
            local_bytes: 0,
            required: None,
        }),
    }
}

/// The launch with that number, counted from 0, of a launch file, for a program whose kernel it
/// names: its sizes, the buffers and values bound to the kernel's parameters, and its files. It is
/// refused for the first of these conditions that stands: `Sizes`, `ArgumentCount`, `ArgumentKind`,
/// `ValueOutOfRange`, `UnknownBuffer`, `ConstantBufferShared`, `RequiredSize`, `LocalMemory`,
/// `Buffers`.
pub fn bind(
    alloc: Global,
    program: &Program,
    text: &LaunchText,
    which: usize,
) -> Result<Launch, LaunchError>
    requires within { which < length text.now.list.items }
    requires lengths { All (λ p. HasOneLength (part_of p)) text.now.list.items }
    ensures bound { IfOk result (spec.Binds (needs_of_kernel (map function_of program.now.functions.items)
        program.now.kernel) (text_of text.now) (spec.part_at (text_of text.now) which)) }
    ensures offsets { IfOk result (λ l. spec.AreOffsets l.offset) }
    ensures refused { (first : Refusal) → result ≡ Err (Refused first) →
        spec.launch_refusal (needs_of_kernel (map function_of program.now.functions.items) program.now.kernel)
        (text_of text.now).buffers (spec.part_at (text_of text.now) which) ≡ Some first }
{
    let asked = needs(alloc, program)?;
    bind_kernel(alloc, &asked, text, which)
}
