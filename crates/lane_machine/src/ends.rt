//! The end of a code on a chunk as an end of the launch.
ghost use Rattle.std.specs.Prelude.{◌≡◌, ◌<◌, ◌≤◌, ◌+◌, ◌*◌, ◌^◌};
ghost use Rattle.cl_model.specs.Sizes.{group_size};
ghost use Rattle.cl_model.specs.View.{launch_of};
ghost use Rattle.lane_code.specs.View.{plain_of};
ghost use Rattle.lane_code.specs.Run.{chunk_at, end_of};
ghost use Rattle.lane_machine.specs.Sizes.{HasSizes};
ghost use Rattle.lane_machine.specs.Ends.{is_done};

use crate::queries::whole;
use crate::setting::Task;
use cl_model::Launch;
use lane_code::{RegionEnd, RunEnd};

/// The number in the launch of the item in a lane of a chunk.
fn item_in<const W: usize>(launch: &Launch, number: u64, chunk: u32, lane: u32) -> u64
    requires lanes { W ≤ 64 }
    requires sizes { HasSizes (launch_of launch.now) }
    requires number { number < 2 ^ 24 }
    ensures { result ≡ number * group_size (launch_of launch.now) + (chunk * W + lane) }
{
    let first = chunk as u64 * W as u64;
    number * whole(&launch.local) + (first + lane as u64)
}

/// The end of a code on a chunk of the group, as an end of the launch.
#[inline(never)]
pub(crate) fn launch_end<const W: usize>(task: Task, number: u64, end: RegionEnd) -> RunEnd
    requires lanes { W ≤ 64 }
    requires width { (plain_of task.program.now).width ≡ W }
    requires sizes { HasSizes (launch_of task.launch.now) }
    requires number { number < 2 ^ 24 }
    ensures { result ≡ end_of (chunk_at (plain_of task.entry.program.now) (launch_of task.entry.launch.now) number
        task.entry.chunk) end }
{
    match end {
        RegionEnd::Done => RunEnd::Done,
        RegionEnd::Range { lane, site } => RunEnd::Range {
            group: number,
            item: item_in::<W>(task.launch, number, task.chunk, lane),
            site,
        },
        RegionEnd::AtBarrier { lane, site } => RunEnd::Parted {
            group: number,
            item: item_in::<W>(task.launch, number, task.chunk, lane),
            site,
        },
        RegionEnd::Turns => RunEnd::Turns,
    }
}

/// Whether the end is `Done`.
pub fn has_done(end: RunEnd) -> bool
    ensures { result ≡ is_done end }
{
    match end {
        RunEnd::Done => true,
        RunEnd::Range { .. } | RunEnd::Parted { .. } | RunEnd::Turns => false,
    }
}
