//! The division of the worked examples on the machine, and the scan twice over one launcher.
ghost use Rattle.std.specs.Prelude.{sum};
ghost use Rattle.cl_model.specs.Fitting.{FitBuffers};
ghost use Rattle.cl_model.specs.View.{buffers_of, launch_of};
ghost use Rattle.lane_code.specs.View.{plain_of};
ghost use Rattle.lane_code.specs.Fits.{LaunchFits};

use crate::{Ready, buffers_for, made_ready};
use cl_model::{Buffers, Launch};
use group_run::Launcher;
use lane_code::{GroupProgram, Node, RegionEnd, RunEnd};
use lane_flat::flat_code;
use lane_machine::{Group, Machine};
use std::alloc::Global;
use std::test::Fail;
use wg_num::{Memory, Width, boxed};

const SCAN: &str = "__kernel void scan(__global int *a) {
  __local int t[8];
  int l = get_local_id(0);
  int d;
  int v;
  t[l] = a[get_global_id(0)];
  barrier(CLK_LOCAL_MEM_FENCE);
  for (d = 1; d < 8; d *= 2) {
    v = t[l];
    if (l >= d)
      v += t[l - d];
    barrier(CLK_LOCAL_MEM_FENCE);
    t[l] = v;
    barrier(CLK_LOCAL_MEM_FENCE);
  }
  a[get_global_id(0)] = t[l];
}";

const SCAN_LAUNCH: &str = r#"format = 1
kernel = "scan"
global = 16
local = 8
[[buffer]]
name = "a"
bytes = 64
[[arg]]
buffer = "a"
"#;

const DIVISION: &str =
    "__kernel void dv(__global int *x, __global int *y, __global int *q, __global int *r) {
  int i = get_global_id(0);
  q[i] = x[i] / y[i];
  r[i] = x[i] % y[i];
}";

const DIVISION_LAUNCH: &str = r#"format = 1
kernel = "dv"
global = 4
local = 4
[[buffer]]
name = "x"
bytes = 16
[[buffer]]
name = "y"
bytes = 16
[[buffer]]
name = "q"
bytes = 16
[[buffer]]
name = "r"
bytes = 16
[[arg]]
buffer = "x"
[[arg]]
buffer = "y"
[[arg]]
buffer = "q"
[[arg]]
buffer = "r"
"#;

// The numbers 0 to 7 and 8 to 15, each summed up to its place: what two groups of 8 leave.
const SUMS: [u8; 16] = [0, 1, 3, 6, 10, 15, 21, 28, 8, 17, 27, 38, 50, 63, 77, 92];

// Whether the first buffer has these words, each below 256.
fn has_words(buffers: &Buffers, words: &[u8]) -> bool {
    let Some(bytes) = buffers.list.get(0) else {
        return false;
    };
    if bytes.len() / 4 != words.len() {
        return false;
    }
    for at in 0..bytes.len() {
        let expected = if at % 4 == 0 {
            words.get(at / 4).copied().unwrap_or(1)
        } else {
            0
        };
        if bytes[at] != expected {
            return false;
        }
    }
    true
}

// How two runs of one launcher over equal buffers end, and whether each leaves the sums.
#[derive(Clone, Copy)]
struct Twice {
    ends: (RunEnd, RunEnd),
    first_sums: bool,
    second_sums: bool,
}

// The launch runs on the first buffers, and then on the second.
fn run_both(
    alloc: Global,
    group: &GroupProgram,
    launch: Launch,
    first: &mut Buffers,
    second: &mut Buffers,
) -> Result<Twice, Memory>
    requires fits { LaunchFits (plain_of group.now).params (sum (plain_of group.now).locals) (launch_of launch) }
    requires first { FitBuffers (launch_of launch) (buffers_of first.old) }
    requires second { FitBuffers (launch_of launch) (buffers_of second.old) }
{
    let mut launcher = Launcher::prepare(alloc, group, launch)?;
    let ends = (launcher.run(first), launcher.run(second));
    drop(launcher);
    Ok(Twice {
        ends,
        first_sums: has_words(first, &SUMS),
        second_sums: has_words(second, &SUMS),
    })
}

fn run_twice(alloc: Global, group: &GroupProgram, launch: Launch) -> Result<Twice, Memory>
    requires { LaunchFits (plain_of group.now).params (sum (plain_of group.now).locals) (launch_of launch) }
{
    let launch = boxed(alloc, launch)?;
    let mut first = buffers_for(alloc, &launch)?;
    let mut second = first.copy(alloc)?;
    run_both(
        alloc,
        group,
        Box::into_inner(launch),
        &mut first,
        &mut second,
    )
}

#[test]
fn a_launcher_runs_the_scan_twice(rt: HostRuntime) -> Result<(), Fail> {
    let Ready { group, launch } = made_ready(
        rt.alloc(),
        SCAN.as_bytes(),
        SCAN_LAUNCH.as_bytes(),
        b"scan",
        Width::W4,
    )?;
    let twice = run_twice(rt.alloc(), &group, launch);
    drop(group);
    let twice = twice?;
    assert_eq!(rt; twice.ends, (RunEnd::Done, RunEnd::Done));
    assert_eq!(rt; (twice.first_sums, twice.second_sums), (true, true));
    Ok(())
}

// The vector operations that the one code of the program takes on its one chunk.
fn operations(alloc: Global, ready: &Ready) -> Result<Option<u64>, Memory>
    requires { LaunchFits (plain_of ready.now.group).params (sum (plain_of ready.now.group).locals)
        (launch_of ready.now.launch) }
{
    let Node::Items(code) = &ready.group.top else {
        return Ok(None);
    };
    let flat = flat_code(alloc, code)?;
    let mut buffers = buffers_for(alloc, &ready.launch)?;
    let mut machine = boxed(alloc, Machine::new(alloc, &ready.group)?)?;
    let mut group = boxed(alloc, Group::new(alloc, &ready.group, &ready.launch)?)?;
    let mut turns = 1000;
    let end = machine.region(
        code,
        &flat,
        &ready.group,
        &ready.launch,
        &mut buffers,
        &mut group,
        0,
        &mut turns,
    );
    if end == RegionEnd::Done {
        Ok(Some(machine.tally.count()))
    } else {
        Ok(None)
    }
}

// Four loads, two stores, a division and a remainder are eight.
#[test]
fn the_division_is_done_by_vector_operations(rt: HostRuntime) -> Result<(), Fail> {
    let ready = made_ready(
        rt.alloc(),
        DIVISION.as_bytes(),
        DIVISION_LAUNCH.as_bytes(),
        b"dv",
        Width::W8,
    )?;
    let found = operations(rt.alloc(), &ready);
    drop(ready);
    let found = found?;
    assert_eq!(rt; found.unwrap_or(0) >= 8, true);
    Ok(())
}
