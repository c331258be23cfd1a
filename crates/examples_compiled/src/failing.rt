// The increment over a store and sinks in memory: what a run leaves where one of their calls fails, or has no room.

use std::alloc::Global;
use std::test::Fail;
use wg_outside::{MemorySink, MemoryStore};
use wg_top::wgcc;

const INC: &str =
    "__kernel void inc(__global int *a) { a[get_global_id(0)] = a[get_global_id(0)] + 1; }";

const LAUNCH: &str = r#"format = 1
kernel = "inc"
global = 4
local = 2
[[buffer]]
name = "a"
bytes = 16
load = "a.bin"
save = "a.out"
[[arg]]
buffer = "a"
"#;

const SHORT_LAUNCH: &str = r#"format = 1
kernel = "inc"
global = 4
local = 2
[[buffer]]
name = "a"
bytes = 8
load = "a.bin"
save = "a.out"
[[arg]]
buffer = "a"
"#;

const BEFORE: [u8; 16] = [1, 0, 0, 0, 2, 0, 0, 0, 3, 0, 0, 0, 4, 0, 0, 0];

const AFTER: [u8; 16] = [2, 0, 0, 0, 3, 0, 0, 0, 4, 0, 0, 0, 5, 0, 0, 0];

const DONE: &str = "wgcc: done, 2 groups, 4 items\n";

const CANNOT: &str = "wgcc: cannot read or write\n";

// Which calls of the store and of the two sinks fail, what room a saved file and standard output have, and what the run
// is to leave: its status, whether the file is saved, and the lines.
#[derive(Clone, Copy)]
struct Row<'a> {
    cached: bool,
    launch: &'a str,
    store: &'a [u32],
    out: &'a [u32],
    err: &'a [u32],
    file_room: u64,
    line_room: u64,
    status: u8,
    saved: bool,
    said: &'a str,
    told: &'a str,
}

// The run without a failure.
const WHOLE: Row = Row {
    cached: false,
    launch: LAUNCH,
    store: &[],
    out: &[],
    err: &[],
    file_room: 4096,
    line_room: 4096,
    status: 0,
    saved: true,
    said: DONE,
    told: "",
};

// A run that cannot read or write, and saves nothing.
const FAILED: Row = Row {
    status: 1,
    saved: false,
    said: "",
    told: CANNOT,
    ..WHOLE
};

// A run out of range.
const RANGE: Row = Row {
    launch: SHORT_LAUNCH,
    status: 5,
    saved: false,
    said: "",
    told: "wgcc: range: group 1, item 2, 1:60\n",
    ..WHOLE
};

// The source, the launch file and the buffer are loaded by the calls 0 to 2, and the buffer is saved by call 3. With the
// compile cache call 2 looks for the kernel's entry, which is not there, and call 5 saves it, behind the buffer.
const ROWS: [Row; 15] = [
    WHOLE,
    Row {
        store: &[0],
        ..FAILED
    },
    Row {
        store: &[1],
        ..FAILED
    },
    Row {
        store: &[2],
        ..FAILED
    },
    Row {
        store: &[3],
        ..FAILED
    },
    Row {
        file_room: 8,
        ..FAILED
    },
    Row {
        out: &[0],
        saved: true,
        ..FAILED
    },
    Row {
        line_room: 0,
        saved: true,
        ..FAILED
    },
    RANGE,
    Row {
        err: &[0],
        told: "",
        ..RANGE
    },
    Row {
        cached: true,
        ..WHOLE
    },
    Row {
        cached: true,
        store: &[2],
        ..FAILED
    },
    Row {
        cached: true,
        store: &[4],
        ..FAILED
    },
    Row {
        cached: true,
        store: &[5],
        saved: true,
        ..FAILED
    },
    Row {
        cached: true,
        ..RANGE
    },
];

// Whether a run leaves what its row says.
fn leaves(alloc: Global, row: &Row) -> Result<bool, Fail> {
    let mut words = Vec::new(alloc);
    words.push(String::from_str(alloc, "run")?)?;
    words.push(String::from_str(alloc, "k.cl")?)?;
    words.push(String::from_str(alloc, "k.toml")?)?;
    if row.cached {
        words.push(String::from_str(alloc, "--cache")?)?;
    }
    let mut store = MemoryStore::new(alloc, row.store, 8, row.file_room)?;
    store.add(alloc, "k.cl", INC.as_bytes())?;
    store.add(alloc, "k.toml", row.launch.as_bytes())?;
    store.add(alloc, "a.bin", &BEFORE)?;
    let mut out = MemorySink::new(alloc, row.out, row.line_room)?;
    let mut err = MemorySink::new(alloc, row.err, 4096)?;
    let status = wgcc(alloc, &words, &mut store, &mut out, &mut err);
    let saved = match store.file("a.out") {
        Some(bytes) => row.saved && bytes == AFTER.as_slice(),
        None => !row.saved,
    };
    Ok(
        status == row.status
            && saved
            && out.bytes() == row.said.as_bytes()
            && err.bytes() == row.told.as_bytes(),
    )
}

#[test]
fn a_call_that_fails_is_told_and_ends_the_run(rt: HostRuntime) -> Result<(), Fail> {
    for (number, row) in ROWS.iter().enumerate() {
        assert!(rt; leaves(rt.alloc(), row)?, "at {number}");
    }
    Ok(())
}
