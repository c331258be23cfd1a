//! A region on one chunk, at a width.
ghost use Rattle.std.specs.Prelude.{◌≡◌, ◌<◌, ◌≤◌, ◌+◌, ◌-◌, ◌*◌, ◌/◌, ◌^◌, true};
ghost use Rattle.cl_model.specs.Sizes.{group_count};
ghost use Rattle.cl_model.specs.View.{buffers_of, launch_of};
ghost use Rattle.lane_code.specs.View.{plain_of};
ghost use Rattle.lane_code.specs.Program.{code_of, names_of};
ghost use Rattle.lane_code.specs.Fits.{code_fits};
ghost use Rattle.lane_code.specs.Meaning.{region_end};
ghost use Rattle.lane_code.specs.Run.{chunk_at, chunk_count};
ghost use Rattle.lane_flat.specs.Trees.{IsFlatCode};
ghost use Rattle.lane_machine.specs.Sizes.{HasSizes};
ghost use Rattle.lane_machine.specs.Standing.{HasNames};
ghost use Rattle.lane_machine.specs.Room.{HasRoom, IsNoLess};
ghost use Rattle.lane_machine.specs.Zeroed.{zeroed};

use crate::group_state::Group;
use crate::queries::whole;
use crate::registers::Registers;
use crate::running::run;
use crate::setting::{Setting, Task};
use cl_model::Buffers;
use lane_code::RegionEnd;
use lane_kernels::Tally;

/// The number in its group of the first item of a chunk.
fn first_in<const W: usize>(size: u64, chunk: u32) -> usize
    requires lanes { 1 ≤ W }
    requires chunk { chunk < (size + (W - 1)) / W }
    requires few { size ≤ 2 ^ 24 }
    ensures value { result ≡ chunk * W }
    ensures below { result < size }
{
    chunk as usize * W
}

/// A code on one chunk, in registers of the program's width.
#[inline(always)]
pub(crate) fn region_at<const W: usize>(
    r: &mut Registers<W>,
    task: Task,
    buffers: &mut Buffers,
    group: &mut Group,
    turns: &mut u64,
    tally: &mut Tally,
) -> RegionEnd
    requires lanes { W ≤ 64 }
    requires some { 1 ≤ W }
    requires width { (plain_of task.program.now).width ≡ W }
    requires code { code_fits (names_of (plain_of task.program.now)) task.code.now.counts task.code.now.steps.items ≡
        true }
    requires flat { IsFlatCode (code_of task.code.now) task.flat.now }
    requires sizes { HasSizes (launch_of task.launch.now) }
    requires chunk { task.chunk < chunk_count (plain_of task.program.now) (launch_of task.launch.now) }
    requires number { group.old.number < group_count (launch_of task.launch.now) }
    requires names { HasNames (names_of (plain_of task.program.now)) group.old.kept }
    requires room { HasRoom task.code.now.counts r.old.room }
    ensures end { (region_end (chunk_at (plain_of task.entry.program.now) (launch_of task.entry.launch.now)
        group.old.number task.entry.chunk)
        task.entry.code.now.steps.items task.entry.code.now.counts turns.old group.old.kept
        (buffers_of buffers.old)).end ≡ result }
    ensures turns { (region_end (chunk_at (plain_of task.entry.program.now) (launch_of task.entry.launch.now)
        group.old.number task.entry.chunk)
        task.entry.code.now.steps.items task.entry.code.now.counts turns.old group.old.kept
        (buffers_of buffers.old)).turns ≡ turns.new }
    ensures group { (region_end (chunk_at (plain_of task.entry.program.now) (launch_of task.entry.launch.now)
        group.old.number task.entry.chunk)
        task.entry.code.now.steps.items task.entry.code.now.counts turns.old group.old.kept
        (buffers_of buffers.old)).state.group ≡ group.new.kept }
    ensures buffers { (region_end (chunk_at (plain_of task.entry.program.now) (launch_of task.entry.launch.now)
        group.old.number task.entry.chunk)
        task.entry.code.now.steps.items task.entry.code.now.counts turns.old group.old.kept
        (buffers_of buffers.old)).state.buffers ≡ buffers_of buffers.new }
    ensures names { HasNames (names_of (plain_of task.entry.program.now)) group.new.kept }
    ensures zeroed { zeroed group.new.kept ≡ zeroed group.old.kept }
    ensures number { group.new.number ≡ group.old.number }
    ensures room { IsNoLess r.old.room r.new.room }
{
    let size = whole(&task.launch.local);
    let first = first_in::<W>(size, task.chunk);
    r.restart_for(task.code.counts, &task.flat.cleared, size as usize, first);
    let setting = Setting {
        steps: &task.code.steps,
        flat: &task.flat.steps,
        counts: task.code.counts,
        program: task.program,
        launch: task.launch,
        first,
    };
    run(setting, r, group, buffers, turns, tally)
}
