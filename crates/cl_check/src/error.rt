//! Errors of the checker.

use cl_meaning::Fault;
use thiserror::Error;
use wg_num::Memory;

/// Why a unit has no typed program.
#[derive(Clone, Copy, PartialEq, Eq, Debug, Error)]
pub enum CheckError {
    /// A node is at fault; the token is the first of the node, or the number of tokens where the kernel is
    /// missing.
    #[error("fault in the unit")]
    Fault { fault: Fault, token: u32 },
    #[error("out of memory")]
    Memory,
}

impl From<Memory> for CheckError {
    ghost use Rattle.std.specs.Prelude.{◌≡◌};
    ghost use Rattle.cl_check.specs.declared.error.CheckError.TheVariants.{Memory as OutOfMemory};

    ghost from_gives = { λ _ e. e ≡ OutOfMemory };

    fn from(_memory: Memory) -> CheckError {
        CheckError::Memory
    }
}
