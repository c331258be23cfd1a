//! From a source and a launch file to a program of a work-group and a launch of it.
ghost use Rattle.std.specs.Prelude.{◌≡◌, ◌≤◌, All, IfOk, length, sum};
ghost use Rattle.wg_num.specs.Operators.{lanes_of};
ghost use Rattle.cl_model.specs.View.{launch_of};
ghost use Rattle.lane_code.specs.View.{plain_of};
ghost use Rattle.lane_code.specs.Fits.{LaunchFits};
ghost use Rattle.launch_file.specs.Texts.{part_of};
ghost use Rattle.launch_file.specs.Values.{HasOneLength};
ghost use Rattle.wg_compile.specs.Correct.{IsCompilation};

use cl_front::{compile_kernel, read_source};
use cl_model::Launch;
use cl_prep::Defines;
use lane_code::GroupProgram;
use launch_file::{LaunchText, read};
use launch_file_bind::bind;
use std::alloc::Global;
use wg_compile::{Compiled, compile_program};
use wg_num::{Memory, Width, Word, boxed};
use wg_top::has_room;

/// The program of a work-group, and a launch of it.
#[derive(Drop)]
pub struct Ready {
    pub group: GroupProgram,
    pub launch: Launch,
}

/// The kernel of that name of a source, at a lane width. Memory where the source is refused, too.
fn compiled(alloc: Global, source: &[u8], kernel: &[u8], width: Width) -> Result<Compiled, Memory>
    ensures { IfOk result (IsCompilation (lanes_of width)) }
{
    let defines = Defines {
        list: Vec::new(alloc),
    };
    let Ok(source) = read_source(alloc, source, &defines) else {
        return Err(Memory);
    };
    let Ok(program) = compile_kernel(alloc, &source, kernel) else {
        return Err(Memory);
    };
    let name = Word::new(alloc, kernel)?;
    compile_program(alloc, program, &name, width)
}

/// The program of the work-group alone.
fn group_of(compiled: Compiled) -> GroupProgram
    ensures { result ≡ compiled.group }
{
    let Compiled {
        program,
        kernel,
        varying,
        plan,
        regions,
        group,
    } = compiled;
    drop(program);
    drop(kernel);
    drop(varying);
    drop(plan);
    drop(regions);
    group
}

/// What a launch file says. Memory where it is refused, too.
fn launch_text(alloc: Global, bytes: &[u8]) -> Result<LaunchText, Memory>
    ensures lengths { IfOk result (λ t. All (λ p. HasOneLength (part_of p)) t.list.items) }
    ensures some { IfOk result (λ t. 1 ≤ length t.list.items) }
{
    match read(alloc, bytes, None, None) {
        Ok(text) => Ok(text),
        Err(_) => Err(Memory),
    }
}

/// The first launch of a launch file, for a compiled kernel. Memory where it is refused, too.
fn first_launch(
    alloc: Global,
    kernel: &Compiled,
    text: &LaunchText,
    width: Width,
) -> Result<Launch, Memory>
    requires passes { IsCompilation (lanes_of width) kernel.now }
    requires lengths { All (λ p. HasOneLength (part_of p)) text.now.list.items }
    requires some { 1 ≤ length text.now.list.items }
    ensures { IfOk result (λ l. LaunchFits (plain_of kernel.now.group).params 0 (launch_of l)) }
{
    let _ = width;
    match bind(alloc, &kernel.program, text, 0) {
        Ok(launch) => Ok(launch),
        Err(_) => Err(Memory),
    }
}

/// Both together, where the local memory of a group has room.
fn with_room(group: GroupProgram, launch: Launch) -> Result<Ready, Memory>
    requires { LaunchFits (plain_of group).params 0 (launch_of launch) }
    ensures { IfOk result (λ r.
        LaunchFits (plain_of r.group).params (sum (plain_of r.group).locals) (launch_of r.launch)) }
{
    if has_room(&group.locals, &launch.args) {
        Ok(Ready { group, launch })
    } else {
        Err(Memory)
    }
}

/// The kernel of that name of a source, at a lane width, and the first launch of a launch file. Memory
/// where one of them is refused, too.
pub fn made_ready(
    alloc: Global,
    source: &[u8],
    launch: &[u8],
    kernel: &[u8],
    width: Width,
) -> Result<Ready, Memory>
    ensures { IfOk result (λ r.
        LaunchFits (plain_of r.group).params (sum (plain_of r.group).locals) (launch_of r.launch)) }
{
    let text = launch_text(alloc, launch)?;
    let compiled = boxed(alloc, compiled(alloc, source, kernel, width)?)?;
    let launch = first_launch(alloc, &compiled, &text, width)?;
    with_room(group_of(Box::into_inner(compiled)), launch)
}
