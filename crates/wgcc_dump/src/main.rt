//! `wgcc_dump STAGE SOURCE KERNEL [--lanes N]` prints what one pass leaves of a kernel, so that each pass can be looked
//! at by itself. The texts are made for readers and for comparing; no contract speaks of them.
#![tactic(auto)]

mod code_text;
mod error;
mod expression_text;
mod kernel_text;
mod passes;
mod plan_text;
mod program_text;
mod region_text;
mod statement_text;
mod text;
mod tokens_text;
mod varying_text;
mod words;

use crate::error::{DumpError, say, status_of};
use crate::passes::stage_text;
use crate::words::read_words;
use std::alloc::Global;
use std::env;
use std::process::ExitCode;
use wg_outside::{FolderStore, Sink, StdSink, Store};

// One more than the bytes of the longest source, so that one that is too long is seen to be so.
const SOURCE_MOST: u64 = 262_145;

// Prints what the words ask for.
fn dump<S: Store, O: Sink>(
    alloc: Global,
    words: &[String],
    store: &mut S,
    out: &mut O,
) -> Result<(), DumpError> {
    let asked = read_words(alloc, words)?;
    let bytes = store.load(alloc, asked.source, SOURCE_MOST)?;
    let text = stage_text(alloc, &asked, &bytes)?;
    out.put(&text)?;
    Ok(())
}

fn main(rt: HostRuntime) -> ExitCode {
    let alloc = rt.alloc();
    let mut words: Vec<String> = Vec::new(alloc);
    if let Ok(args) = env::args(&rt) {
        for arg in args.skip(1) {
            if words.push(arg).is_err() {
                return ExitCode::from(status_of(DumpError::Memory));
            }
        }
    }
    let mut store = FolderStore::new(&rt);
    let mut out = StdSink::new(rt.stdout());
    let mut err = StdSink::new(rt.stderr());
    match dump(alloc, &words, &mut store, &mut out) {
        Ok(()) => ExitCode::from(0),
        Err(error) => {
            say(alloc, &mut err, error);
            ExitCode::from(status_of(error))
        }
    }
}
