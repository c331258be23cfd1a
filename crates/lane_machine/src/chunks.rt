//! A code on all chunks of a group, at a width.
ghost use Rattle.std.specs.Prelude.{◌≡◌, ◌<◌, ◌≤◌, ◌+◌, ◌-◌, ◌/◌, ◌^◌, true};
ghost use Rattle.cl_model.specs.View.{buffers_of, launch_of};
ghost use Rattle.lane_code.specs.View.{plain_of};
ghost use Rattle.lane_code.specs.Program.{code_of, names_of};
ghost use Rattle.lane_code.specs.Fits.{code_fits};
ghost use Rattle.lane_code.specs.Meaning.{region_end};
ghost use Rattle.lane_code.specs.Run.{chunk_at, chunk_count, chunk_ended, chunks_end, items_end};
ghost use Rattle.lane_flat.specs.Trees.{IsFlatCode};
ghost use Rattle.lane_machine.specs.Ends.{ended, IsHeldFor};
ghost use Rattle.lane_machine.specs.Room.{HasRoom, IsNoLess};

use crate::ends::{has_done, launch_end};
use crate::group_state::Group;
use crate::queries::whole;
use crate::region::region_at;
use crate::registers::Registers;
use crate::setting::Task;
use cl_model::Buffers;
use lane_code::{RegionEnd, RunEnd};
use lane_kernels::Tally;

/// How many chunks so many items are.
fn chunks_of<const W: usize>(size: u64) -> u32
    requires lanes { 1 ≤ W }
    requires few { W ≤ 64 }
    requires size { size ≤ 2 ^ 24 }
    ensures { result ≡ (size + (W - 1)) / W }
{
    ((size + (W as u64 - 1)) / W as u64) as u32
}

/// A code on one chunk.
#[inline(always)]
fn chunk<const W: usize>(
    r: &mut Registers<W>,
    task: Task,
    buffers: &mut Buffers,
    group: &mut Group,
    turns: &mut u64,
    tally: &mut Tally,
) -> RunEnd
    requires lanes { W ≤ 64 }
    requires some { 1 ≤ W }
    requires width { (plain_of task.program.now).width ≡ W }
    requires stands { IsHeldFor (plain_of task.program.now) (launch_of task.launch.now) group.old.number group.old }
    requires fits { code_fits (names_of (plain_of task.program.now)) task.code.now.counts task.code.now.steps.items ≡
        true }
    requires flat { IsFlatCode (code_of task.code.now) task.flat.now }
    requires chunk { task.chunk < chunk_count (plain_of task.program.now) (launch_of task.launch.now) }
    requires room { HasRoom task.code.now.counts r.old.room }
    ensures end { chunk_ended (chunk_at (plain_of task.entry.program.now) (launch_of task.entry.launch.now)
        group.old.number task.entry.chunk) (region_end (chunk_at (plain_of task.entry.program.now)
        (launch_of task.entry.launch.now) group.old.number task.entry.chunk) task.entry.code.now.steps.items
        task.entry.code.now.counts turns.old group.old.kept (buffers_of buffers.old)) ≡
        ended result turns.new group.new.kept (buffers_of buffers.new) }
    ensures stands { IsHeldFor (plain_of task.entry.program.now) (launch_of task.entry.launch.now) group.old.number
        group.new }
    ensures room { IsNoLess r.old.room r.new.room }
{
    let end = region_at(r, task, buffers, group, turns, tally);
    if let RegionEnd::Done = end {
        return RunEnd::Done;
    }
    launch_end::<W>(task, group.number, end)
}

/// A code on all chunks, in order; the chunk of the task is not looked at.
#[inline(always)]
fn chunks<const W: usize>(
    r: &mut Registers<W>,
    task: Task,
    buffers: &mut Buffers,
    group: &mut Group,
    turns: &mut u64,
    tally: &mut Tally,
) -> RunEnd
    requires lanes { W ≤ 64 }
    requires some { 1 ≤ W }
    requires width { (plain_of task.program.now).width ≡ W }
    requires stands { IsHeldFor (plain_of task.program.now) (launch_of task.launch.now) group.old.number group.old }
    requires fits { code_fits (names_of (plain_of task.program.now)) task.code.now.counts task.code.now.steps.items ≡
        true }
    requires flat { IsFlatCode (code_of task.code.now) task.flat.now }
    requires room { HasRoom task.code.now.counts r.old.room }
    ensures end { chunks_end (plain_of task.entry.program.now) (launch_of task.entry.launch.now) group.old.number
        (code_of task.entry.code.now) 0 (chunk_count (plain_of task.entry.program.now)
        (launch_of task.entry.launch.now)) turns.old group.old.kept (buffers_of buffers.old) ≡
        ended result turns.new group.new.kept (buffers_of buffers.new) }
    ensures stands { IsHeldFor (plain_of task.entry.program.now) (launch_of task.entry.launch.now) group.old.number
        group.new }
    ensures room { IsNoLess r.old.room r.new.room }
{
    let count = chunks_of::<W>(whole(&task.launch.local));
    for number in 0..count {
        let here = Task {
            code: task.code,
            flat: task.flat,
            program: task.program,
            launch: task.launch,
            chunk: number,
        };
        let end = chunk(r, here, buffers, group, turns, tally);
        if !has_done(end) {
            return end;
        }
    }
    RunEnd::Done
}

/// A region: a code on all chunks, between the entry and exit values of the once slots; the chunk of the task is not
/// looked at.
#[inline(never)]
pub(crate) fn items_at<const W: usize>(
    r: &mut Registers<W>,
    task: Task,
    buffers: &mut Buffers,
    group: &mut Group,
    turns: &mut u64,
    tally: &mut Tally,
) -> RunEnd
    requires lanes { W ≤ 64 }
    requires some { 1 ≤ W }
    requires width { (plain_of task.program.now).width ≡ W }
    requires stands { IsHeldFor (plain_of task.program.now) (launch_of task.launch.now) group.old.number group.old }
    requires fits { code_fits (names_of (plain_of task.program.now)) task.code.now.counts task.code.now.steps.items ≡
        true }
    requires flat { IsFlatCode (code_of task.code.now) task.flat.now }
    requires room { HasRoom task.code.now.counts r.old.room }
    ensures end { items_end (plain_of task.entry.program.now) (launch_of task.entry.launch.now) group.old.number
        (code_of task.entry.code.now) turns.old group.old.kept (buffers_of buffers.old) ≡
        ended result turns.new group.new.kept (buffers_of buffers.new) }
    ensures stands { IsHeldFor (plain_of task.entry.program.now) (launch_of task.entry.launch.now) group.old.number
        group.new }
    ensures room { IsNoLess r.old.room r.new.room }
{
    group.begin();
    let end = chunks(r, task, buffers, group, turns, tally);
    if has_done(end) {
        group.finish();
    }
    end
}
