// The launches of a launch file, one after the other, over its buffers.
ghost use Rattle.std.specs.Prelude.{◌≡◌, ◌<◌, ◌≤◌, ◌+◌, All, None, IfOk, IfErr, OnOk};
ghost use Rattle.std.specs.Prelude.{length, map, IsTrue, ◌↔◌, ◌∷◌, [], sum, min, slice_index_or};
ghost use Rattle.cl_model.specs.View.{launch_of, buffers_of};
ghost use Rattle.cl_model.specs.Sizes.{group_count, item_count};
ghost use Rattle.cl_model.specs.Fitting.{FitBuffers};
ghost use Rattle.cl_model.specs.Objects.{local_arguments};
ghost use Rattle.lane_code.specs.View.{plain_of};
ghost use Rattle.lane_code.specs.Fits.{LaunchFits};
ghost use Rattle.launch_file.specs.Texts.{text_of};
ghost use Rattle.wg_top.specs.Given.{IsText};
ghost use Rattle.wg_top.specs.Programs.{HasKinds, RunsBindCause, programs_of, runs_of};
ghost use Rattle.wg_top.specs.Programs.{runs_refusal};
ghost use Rattle.wg_top.specs.Launches.{launches_in, HasLimits, IsReady, all_groups, all_items};
ghost use Rattle.wg_top.specs.CompiledLaunches.{AllFit, LaunchesRan, EndsSo, refusal_of};
ghost use Rattle.wg_top.specs.CompiledLaunches.{start_place};

use crate::guard::{is_within, share_of};
use crate::runnable::Runnable;
use crate::{RunError, Summary};
use cl_model::{Bound, Buffers, Launch};
use group_run::Launcher;
use lane_code::{GroupProgram, RunEnd};
use launch_file::{LaunchError, LaunchText};
use launch_file_bind::bind;
use std::alloc::Global;
use wg_num::{Memory, Place};

// The most bytes of local memory that a group has.
const LOCAL_MOST: u64 = 65_536;

// The place of a site that there is not.
const START: Place = Place { line: 1, column: 1 };

/// The launches, each bound to its own kernel.
pub(crate) fn bind_each(
    alloc: Global,
    runnables: &[Runnable<'_>],
    text: &LaunchText,
) -> Result<Vec<Launch>, RunError>
    requires text { IsText text.now }
    requires as_many { length runnables.now ≡ length text.now.list.items }
    requires kinds { All HasKinds runnables.now }
    ensures launches { IfOk result (λ v. map launch_of v.items ≡ launches_in (text_of text.now)) }
    ensures ready { IfOk result (λ v. All (IsReady text.now.buffers.items) v.items) }
    ensures fit { IfOk result (λ v. AllFit (programs_of (map runs_of runnables.now)) v.items) }
    ensures accepted { IfOk result (λ v. runs_refusal (text_of text.now) (map runs_of runnables.now) ≡ None) }
    ensures err { IfErr result (RunsBindCause (text_of text.now) (map runs_of runnables.now)) }
{
    let mut list = Vec::new(alloc);
    for which in 0..text.list.len() {
        match bind(alloc, runnables[which].program, text, which) {
            Ok(launch) => {
                if list.push(launch).is_err() {
                    return Err(RunError::Memory);
                }
            }
            Err(LaunchError::Refused(refusal)) => return Err(RunError::Launch { refusal }),
            Err(LaunchError::Memory) => return Err(RunError::Memory),
        }
    }
    Ok(list)
}

// The groups and the items of one launch.
fn counts(launch: &Launch) -> Summary
    requires { HasLimits (launch_of launch.now) }
    ensures groups { result.groups ≡ group_count (launch_of launch.now) }
    ensures items { result.items ≡ item_count (launch_of launch.now) }
    ensures few_groups { result.groups ≤ 16777216 }
    ensures few_items { result.items ≤ 16777216 }
{
    let columns = launch.global[1] / launch.local[1];
    let planes = launch.global[2] / launch.local[2];
    let rows = launch.global[0] / launch.local[0];
    let groups = rows * (columns * planes);
    let size = launch.local[0] * (launch.local[1] * launch.local[2]);
    Summary {
        groups,
        items: groups * size,
    }
}

/// The groups and the items of the launches together.
pub(crate) fn count_all(launches: &[Launch]) -> Summary
    requires limits { All (λ l. HasLimits (launch_of l)) launches.now }
    requires few { length launches.now ≤ 16 }
    ensures groups { result.groups ≡ all_groups (map launch_of launches.now) }
    ensures items { result.items ≡ all_items (map launch_of launches.now) }
{
    let mut groups = 0u64;
    let mut items = 0u64;
    for k in 0..launches.len() {
        let own = counts(&launches[k]);
        groups += own.groups;
        items += own.items;
    }
    Summary { groups, items }
}

// So many bytes, and no more than one above the most that a group has.
fn capped(sum: u64, bytes: u64) -> u64
    ensures { result ≡ min (sum + bytes) 65537 }
{
    if bytes > LOCAL_MOST || sum > LOCAL_MOST {
        LOCAL_MOST + 1
    } else {
        (sum + bytes).min(LOCAL_MOST + 1)
    }
}

// The bytes of local memory that an argument gives.
fn local_bytes_of(arg: Bound) -> u64
    ensures { result ≡ sum (local_arguments (arg ∷ [])) }
{
    match arg {
        Bound::Local(bytes) => bytes,
        Bound::Buffer(_) => 0,
        Bound::Value(_) => 0,
    }
}

/// Whether the local arrays of a kernel, of so many bytes each, and the local arguments of a launch have room
/// together: 65,536 bytes for a work-group (CL_DEVICE_LOCAL_MEM_SIZE of OpenCL 1.2, section 4.2).
pub fn has_room(locals: &[u64], args: &[Bound]) -> bool
    ensures { IsTrue result ↔ (sum locals.now + sum (local_arguments args.now) ≤ 65536) }
{
    let mut bytes = 0u64;
    for own in locals {
        bytes = capped(bytes, *own);
    }
    for k in 0..args.len() {
        bytes = capped(bytes, local_bytes_of(args[k]));
    }
    bytes <= LOCAL_MOST
}

// The program made ready for the launch; `Memory` also where the local memory of its groups
// has no room, or the program asks for more columns or slots than it may, or for more than so many
// registers.
fn prepare_one(
    alloc: Global,
    most: usize,
    group: &GroupProgram,
    launch: Launch,
) -> Result<Launcher<'_>, Memory>
    requires { LaunchFits (plain_of group.now).params 0 (launch_of launch) }
    ensures program { IfOk result (λ l. l.program ≡ group.now) }
    ensures launch { IfOk result (λ l. l.launch ≡ launch) }
    ensures fit { IfOk result (λ l. LaunchFits (plain_of l.program).params (sum (plain_of l.program).locals)
        (launch_of l.launch)) }
{
    if has_room(&group.locals, &launch.args) && is_within(most, group) {
        Launcher::prepare(alloc, group, launch)
    } else {
        Err(Memory)
    }
}

/// The programs, each made ready for its launch.
pub(crate) fn prepare_each<'k>(
    alloc: Global,
    runnables: &[Runnable<'k>],
    launches: Vec<Launch>,
) -> Result<Vec<Launcher<'k>>, Memory>
    requires { AllFit (map (λ r. plain_of r.group.now) runnables.now) launches.items }
    ensures programs { IfOk result (λ v. map (λ l. plain_of l.program) v.items ≡
        map (λ r. plain_of r.group.now) runnables.now) }
    ensures launches { IfOk result (λ v. map (λ l. l.launch) v.items ≡ launches.items) }
    ensures fit { IfOk result (λ v.
        All (λ l. LaunchFits (plain_of l.program).params (sum (plain_of l.program).locals) (launch_of l.launch))
        v.items) }
{
    let most = share_of(runnables.len());
    let mut launchers = Vec::new(alloc);
    let mut rest = launches.into_iter();
    for runnable in runnables {
        let Some(launch) = rest.next() else {
            return Ok(launchers);
        };
        let launcher = prepare_one(alloc, most, runnable.group, launch)?;
        if launchers.push(launcher).is_err() {
            return Err(Memory);
        }
    }
    Ok(launchers)
}

// The place of a site.
fn place_of(sites: &[Place], site: u32) -> Place
    ensures { result ≡ slice_index_or sites.now site start_place }
{
    match sites.get(site as usize) {
        Some(place) => *place,
        None => START,
    }
}

// The refusal of a run whose launch with that number, counted from 1, ends so; none where it is done.
fn refusal(end: RunEnd, launch: u32, several: bool, sites: &[Place]) -> Option<RunError>
    ensures { result ≡ refusal_of end launch several sites.now }
{
    match end {
        RunEnd::Done => None,
        RunEnd::Range { group, item, site } => Some(RunError::Range {
            launch,
            several,
            group,
            item,
            place: place_of(sites, site),
        }),
        RunEnd::Parted { group, item, site } => Some(RunError::Parted {
            launch,
            several,
            group,
            item,
            place: place_of(sites, site),
        }),
        RunEnd::Turns => Some(RunError::Turns { launch, several }),
    }
}

/// Runs the launches in order, each on the buffers that the one before it left, up to the first that
/// is not done, and answers its refusal.
pub(crate) fn run_each(
    launchers: &mut Vec<Launcher>,
    buffers: &mut Buffers,
    several: bool,
) -> Result<(), RunError>
    requires fit { All (λ l. FitBuffers (launch_of l.launch) (buffers_of buffers.old)) launchers.old.items }
    requires few { length launchers.old.items ≤ 16 }
    ensures ran { OnOk result (LaunchesRan (map (λ l. plain_of l.program) launchers.old.items)
        (map (λ l. launch_of l.launch) launchers.old.items) (buffers_of buffers.old) (buffers_of buffers.new)) }
    ensures stops { IfErr result (EndsSo several (map (λ l. plain_of l.program) launchers.old.items)
        (map (λ l. launch_of l.launch) launchers.old.items) (buffers_of buffers.old)) }
    ensures launchers { launchers.new.items ≡ launchers.old.items }
    ensures lengths { map (λ b. length b.items) buffers.new.list.items ≡
        map (λ b. length b.items) buffers.old.list.items }
{
    for k in 0..launchers.len() {
        let launcher = &mut launchers[k];
        let end = launcher.run(buffers);
        if let Some(error) = refusal(end, k as u32 + 1, several, &launcher.program().sites) {
            return Err(error);
        }
    }
    Ok(())
}
