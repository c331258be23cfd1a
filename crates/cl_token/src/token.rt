//! The tokens of a source, and what can be wrong with a source that has none.

use thiserror::Error;
use wg_num::{Memory, Word};

/// What a token is (OpenCL 1.2, section 6; C99, section 6.4).
#[derive(Clone, Copy, PartialEq, Eq, Debug)]
pub enum Kind {
    /// An identifier or a keyword.
    Name,
    /// An integer constant.
    Number,
    /// A punctuator other than `#`.
    Mark,
    /// The `#` that may begin a directive.
    Hash,
}

/// A token of a source.
#[derive(Drop)]
pub struct Token {
    pub kind: Kind,
    /// The bytes with which it is spelled.
    pub word: Word,
    /// The offset in the source of its first byte.
    pub start: u32,
    /// The offset in the source of the byte behind its last one.
    pub end: u32,
    /// Whether it is the first token of its line.
    pub first: bool,
}

/// Why a source is not cut into tokens. `at` is an offset in the source.
#[derive(Clone, Copy, PartialEq, Eq, Debug, Error)]
pub enum LexError {
    /// E101: at `at` no token, blank or comment begins.
    #[error("no token")]
    NoToken { at: u32 },
    /// E102: the block comment that begins at `at` has no end.
    #[error("unfinished comment")]
    OpenComment { at: u32 },
    /// E103: the number that begins at `at` is not spelled as an integer constant.
    #[error("malformed number")]
    BadNumber { at: u32 },
    /// E104: the number that begins at `at` fits none of its types.
    #[error("number too large")]
    LargeNumber { at: u32 },
    /// E105: the source has more than 262,144 bytes.
    #[error("source too long")]
    TooLong,
    #[error("out of memory")]
    Memory,
}

impl From<Memory> for LexError {
    ghost use Rattle.std.specs.Prelude.{◌≡◌};
    ghost use Rattle.cl_token.specs.declared.token.LexError.TheVariants.{Memory as OutOfMemory};

    ghost from_gives = { λ _ e. e ≡ OutOfMemory };

    fn from(_memory: Memory) -> LexError {
        LexError::Memory
    }
}
