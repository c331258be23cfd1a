//! Expansion.

use thiserror::Error;
use wg_num::{Memory, Word};

/// A name that is given with the source, with the number that replaces it.
#[derive(Drop)]
pub struct Define {
    pub name: Word,
    pub value: u64,
}

/// The names that are given with a source, in order.
#[derive(Drop)]
pub struct Defines {
    pub list: Vec<Define>,
}

/// Why tokens are not expanded. `token` is the number of the token at fault, counted from 0.
#[derive(Clone, Copy, PartialEq, Eq, Debug, Error)]
pub enum PrepError {
    /// E201: the directive is not one that is read. The token is its `#`.
    #[error("directive not in the profile")]
    BadDirective { token: u32 },
    /// E202: the directive lacks its name. The token is its `#`.
    #[error("name missing")]
    NoName { token: u32 },
    /// E203: the name already has a replacement with other words. The token is the name.
    #[error("defined twice")]
    Redefined { token: u32 },
    /// E204: no conditional is open, or its `#else` has been read. The token is the `#`.
    #[error("no opening")]
    NoOpening { token: u32 },
    /// E205: the conditional that the token, its `#`, opens is not closed.
    #[error("conditional not closed")]
    NotClosed { token: u32 },
    /// E206: the token gives the 65,537th token, or replaces the 1,048,577th name.
    #[error("too many tokens")]
    TooMany { token: u32 },
    #[error("out of memory")]
    Memory,
}

impl From<Memory> for PrepError {
    ghost use Rattle.std.specs.Prelude.{◌≡◌};
    ghost use Rattle.cl_prep.specs.declared.prep.PrepError.TheVariants.{Memory as OutOfMemory};

    ghost from_gives = { λ _ e. e ≡ OutOfMemory };

    fn from(_memory: Memory) -> PrepError {
        PrepError::Memory
    }
}
