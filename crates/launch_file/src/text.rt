//! What a launch file says.

use crate::refusal::Refusal;
use cl_prep::Defines;
use wg_num::{Memory, Width, Word};

/// A buffer: its name and its length in bytes, the file that it starts as and the file that it is
/// saved as.
#[derive(Drop)]
pub struct BufferText {
    pub name: Word,
    pub bytes: i64,
    pub load: Option<Word>,
    pub save: Option<Word>,
}

/// An argument: a buffer by its name, a value, or bytes of local memory.
#[derive(Drop)]
pub enum ArgText {
    Buffer(Word),
    Value(i64),
    Local(i64),
}

/// One launch: the kernel by its name, the global and local sizes and the offset in each dimension
/// (OpenCL 1.2, section 5.8), and the arguments in order.
#[derive(Drop)]
pub struct LaunchPart {
    pub kernel: Word,
    pub global: Vec<i64>,
    pub local: Vec<i64>,
    pub offset: Vec<i64>,
    pub args: Vec<ArgText>,
}

/// A launch file. `turns` is the most loop iterations that the work-items of a launch may begin
/// together. A file of format 3 has `several` launches in `list`, and one of format 1 or 2 has one.
#[derive(Drop)]
pub struct LaunchText {
    pub defines: Defines,
    pub lanes: Width,
    pub turns: u64,
    pub buffers: Vec<BufferText>,
    pub several: bool,
    pub list: Vec<LaunchPart>,
}

/// Why a launch file gives no text or no launch: it is refused for the first condition that stands,
/// or memory ran out.
#[derive(Clone, Copy, PartialEq, Eq, Debug)]
pub enum LaunchError {
    Refused(Refusal),
    Memory,
}

impl From<Memory> for LaunchError {
    ghost use Rattle.std.specs.Prelude.{◌≡◌};
    ghost use Rattle.launch_file.specs.declared.text.LaunchError.TheVariants.{Memory as OutOfMemory};

    ghost from_gives = { λ _ e. e ≡ OutOfMemory };

    fn from(_memory: Memory) -> LaunchError {
        LaunchError::Memory
    }
}
