//! The program: hands its words, the files of the current folder and the standard streams to the
//! top call, and ends with its status.
#![tactic(auto)]

use std::alloc::{AllocError, Global};
use std::env::{self, Args};
use std::io::{Error, ErrorKind};
use std::process::ExitCode;
use wg_outside::{FolderStore, StdSink};
use wg_top::wgcc;

// The status where there is no memory for the list of words.
const OUT_OF_MEMORY: u8 = 8;

// The words behind the program's name. One that is not UTF-8 is a word that no command takes, so
// it stands for an empty one, which none takes either.
fn words_of(alloc: Global, args: Result<Args, Error>) -> Result<Vec<String>, AllocError> {
    let mut words = Vec::new(alloc);
    match args {
        Ok(args) => {
            for arg in args.skip(1) {
                words.push(arg)?;
            }
        }
        Err(error) => match error.kind() {
            ErrorKind::InvalidData => words.push(String::new(alloc))?,
            _ => return Err(AllocError),
        },
    }
    Ok(words)
}

fn main(rt: HostRuntime) -> ExitCode {
    let Ok(words) = words_of(rt.alloc(), env::args(&rt)) else {
        return ExitCode::from(OUT_OF_MEMORY);
    };
    let mut store = FolderStore::new(&rt);
    let mut out = StdSink::new(rt.stdout());
    let mut err = StdSink::new(rt.stderr());
    let status = wgcc(rt.alloc(), &words, &mut store, &mut out, &mut err);
    ExitCode::from(status)
}
