//! What holds of launches.

ghost use Rattle.std.specs.Prelude.{◌≡◌, List, ◌*◌, [], ◌∷◌, IfOk, replicate};
ghost use Rattle.work_items.specs.Items.{Move};
ghost use Rattle.work_items.specs.Runs.{IsRun};
ghost use Rattle.work_items.specs.Histories.{HasHistories};
ghost use Rattle.work_items.specs.Law.{Agrees};
ghost use Rattle.cl_model.specs.View.{program_of, launch_of, buffers_of};
ghost use Rattle.cl_model.specs.Heads.{heads_of};
ghost use Rattle.cl_model.specs.Valid.{IsValid};
ghost use Rattle.cl_model.specs.Fitting.{FitsProgram};
ghost use Rattle.cl_model.specs.Increment.{IsFlat, increment_head, increment_program, flat_launch};
ghost use Rattle.cl_model.specs.Exchange.{exchange_head, exchange_program, exchange_launch};
ghost use Rattle.cl_model.specs.Meaning.{machine_of, start_world, lengths_of, MayBeTold, ItemCanCome, IsCleanLaunch};

use crate::launch::{Buffers, Launch};
use crate::law_programs;
use crate::program::Program;
use std::alloc::Global;
use wg_num::Memory;

/// All interleavings agree. In a clean launch two different moves that can both be made lead, in
/// either order, to one world; each run goes on to one that no move can follow; all of these have
/// one length and leave one world; and the launch has one outcome, which is to be done with the
/// buffers that each of them leaves. It holds on every launch and all buffers, those that do not fit
/// included.
pub fn agree_law(program: &Program, launch: &Launch, buffers: &Buffers)
    requires { IsValid (program_of program.now) }
    ensures { IsCleanLaunch (program_of program.now) (launch_of launch.now) (buffers_of buffers.now)
        → Agrees (machine_of (program_of program.now) (launch_of launch.now))
        (ItemCanCome (program_of program.now) (launch_of launch.now) (buffers_of buffers.now))
        (start_world (program_of program.now) (launch_of launch.now) (buffers_of buffers.now)) }
{}

/// What each item does in a run is a history of it: its own steps from its start, whatever the
/// others do. A load from constant memory gives what the launch starts with, since no item of a
/// valid program stores there.
pub fn history_law(program: &Program, launch: &Launch, buffers: &Buffers)
    requires valid { IsValid (program_of program.now) }
    requires fits { FitsProgram (program_of program.now) (launch_of launch.now) }
    ensures { (moves : List Move) →
        IsRun (machine_of (program_of program.now) (launch_of launch.now))
        (start_world (program_of program.now) (launch_of launch.now) (buffers_of buffers.now)) moves
        → HasHistories (machine_of (program_of program.now) (launch_of launch.now))
        (lengths_of (program_of program.now) (launch_of launch.now) (buffers_of buffers.now))
        (MayBeTold (program_of program.now) (launch_of launch.now) (buffers_of buffers.now))
        (start_world (program_of program.now) (launch_of launch.now) (buffers_of buffers.now)) moves }
{}

/// The premise of `agree_law` is met at every size: the program in which each item adds 1 to its own
/// element, `a[get_global_id(0)] = a[get_global_id(0)] + 1`, with a launch of these sizes in one
/// dimension and no turn, and a buffer of zeros with one element an item. The program is that of
/// `__kernel void inc(__global int *a)`, with its names and places.
pub fn increment_law(
    alloc: Global,
    global: u64,
    local: u64,
) -> Result<(Program, Launch, Buffers), Memory>
    requires { IsFlat global local }
    ensures program { IfOk result (λ r. program_of r.0 ≡ increment_program) }
    ensures names { IfOk result (λ r. heads_of r.0 ≡ increment_head ∷ []) }
    ensures launch { IfOk result (λ r. launch_of r.1 ≡ flat_launch global local (global * 4)) }
    ensures buffers { IfOk result (λ r. buffers_of r.2 ≡ replicate (global * 4) 0 ∷ []) }
    ensures valid { IfOk result (λ r. IsValid (program_of r.0)) }
    ensures fits { IfOk result (λ r. FitsProgram (program_of r.0) (launch_of r.1)) }
    ensures clean { IfOk result (λ r. IsCleanLaunch (program_of r.0) (launch_of r.1) (buffers_of r.2)) }
{
    let program = law_programs::increment_program(alloc)?;
    let launch = law_programs::flat_launch(alloc, global, local, global * 4)?;
    let buffers = law_programs::zero_buffer(alloc, (global * 4) as usize)?;
    Ok((program, launch, buffers))
}

/// It is met with barriers as well: two items exchange their elements through local memory. The
/// program has its names and places too.
pub fn exchange_law(alloc: Global) -> Result<(Program, Launch, Buffers), Memory>
    ensures program { IfOk result (λ r. program_of r.0 ≡ exchange_program) }
    ensures names { IfOk result (λ r. heads_of r.0 ≡ exchange_head ∷ []) }
    ensures launch { IfOk result (λ r. launch_of r.1 ≡ exchange_launch) }
    ensures buffers { IfOk result (λ r. buffers_of r.2 ≡ replicate 8 0 ∷ []) }
    ensures valid { IfOk result (λ r. IsValid (program_of r.0)) }
    ensures fits { IfOk result (λ r. FitsProgram (program_of r.0) (launch_of r.1)) }
    ensures clean { IfOk result (λ r. IsCleanLaunch (program_of r.0) (launch_of r.1) (buffers_of r.2)) }
{
    let program = law_programs::exchange_program(alloc)?;
    let launch = law_programs::flat_launch(alloc, 2, 2, 8)?;
    let buffers = law_programs::zero_buffer(alloc, 8)?;
    Ok((program, launch, buffers))
}
