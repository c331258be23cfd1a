// What the commands that run nothing print.
ghost use Rattle.std.specs.Prelude.{◌≡◌, ◌++◌, ℕ, IfOk, IfErr, OnOk, map};
ghost use Rattle.cl_model.specs.Valid.{IsValid};
ghost use Rattle.cl_check_sound.specs.Erased.{program_of};
ghost use Rattle.launch_file.specs.Texts.{text_of};
ghost use Rattle.wg_top.specs.Causes.{standing, ReadingCause};
ghost use Rattle.wg_compile.specs.Correct.{IsCompilation};
ghost use Rattle.wg_top.specs.Given.{IsGiven};
ghost use Rattle.wg_top.specs.CompiledShown.{showing};
ghost use Rattle.wg_top.specs.Shown.{head_of, Shows};
ghost use Rattle.wg_top.specs.Ends.{ShownRead};
ghost use Rattle.command_words.specs.Command.{files_of};
ghost use Rattle.cl_meaning.specs.View.{unit_of};

use crate::RunError;
use crate::reading::{Given, Options, read_all};
use command_words::FileWords;
use ctx_plan_text::plan_text;
use itoa::Buffer;
use lane_code::listing;
use std::alloc::Global;
use wg_compile::Compiled;
use wg_num::Memory;
use wg_outside::Store;

/// A text of a kernel: which of its variables are kept between regions, or its listing.
#[derive(Clone, Copy)]
pub(crate) enum Shown {
    Plan,
    Code,
}

fn put(text: &mut Vec<u8>, bytes: &[u8]) -> Result<(), Memory>
    ensures { OnOk result (text.new.items ≡ text.old.items ++ bytes.now) }
{
    match text.extend_from_slice(bytes) {
        Ok(()) => Ok(()),
        Err(_) => Err(Memory),
    }
}

// The text of one kernel.
fn kernel_text(alloc: Global, shown: Shown, kernel: &Compiled) -> Result<Vec<u8>, Memory>
    ensures { IfOk result (λ v. (width : ℕ) → IsCompilation width kernel.now →
        IsValid (program_of (unit_of kernel.now.program)) →
        showing shown width kernel.now.group.kernel (unit_of kernel.now.program) v.items) }
{
    match shown {
        Shown::Plan => plan_text(alloc, &kernel.program, &kernel.kernel, &kernel.plan),
        Shown::Code => listing(alloc, &kernel.group),
    }
}

// The line of the launch with that number, where a file lists its launches.
fn put_head(text: &mut Vec<u8>, several: bool, number: u64) -> Result<(), Memory>
    ensures { OnOk result (text.new.items ≡ text.old.items ++ head_of several number) }
{
    if !several {
        return Ok(());
    }
    let mut buffer = Buffer::new();
    put(text, b"launch ")?;
    put(text, buffer.format(number).as_bytes())?;
    put(text, b"\n")
}

// The texts of the kernels of all launches, in order, each behind a line with the number of its
// launch where the file lists its launches.
fn texts_of(alloc: Global, shown: Shown, given: &Given) -> Result<Vec<u8>, Memory>
    requires { IsGiven given.now }
    ensures { IfOk result (λ v. Shows (showing shown) (text_of given.now.text)
        (map (λ c. unit_of c.program) given.now.kernels.items) v.items) }
{
    let mut text = Vec::new(alloc);
    for k in 0..given.kernels.len() {
        let own = kernel_text(alloc, shown, given.kernels[k].compiled())?;
        put_head(&mut text, given.text.several, k as u64 + 1)?;
        put(&mut text, &own)?;
    }
    Ok(text)
}

/// The texts of the kernels of a launch file's launches.
pub(crate) fn show_source<S: Store>(
    alloc: Global,
    shown: Shown,
    files: FileWords,
    store: &mut S,
) -> Result<Vec<u8>, RunError>
    ensures ok { IfOk result (λ v. ShownRead (S.files store.old) (files_of files.entry) (showing shown) v.items) }
    ensures err { IfErr result (ReadingCause (standing S.files S.faults S.misses store.old)
        (standing S.files S.faults S.misses store.new) (files_of files.entry)) }
    ensures files_stay { S.files store.new ≡ S.files store.old }
{
    let options = Options {
        lanes: files.lanes,
        turns: files.turns,
    };
    match read_all(alloc, store, files.source, files.launch, options) {
        Ok(given) => match texts_of(alloc, shown, &given) {
            Ok(text) => Ok(text),
            Err(Memory) => Err(RunError::Memory),
        },
        Err(error) => Err(error),
    }
}
