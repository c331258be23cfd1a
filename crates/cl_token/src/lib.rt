//! The tokens of an OpenCL C source, with their places.
#![tactic(auto)]

pub mod bytes;
mod lexeme;
pub mod lexer;
pub mod number;
pub mod place;
pub mod token;

pub use bytes::{is_name_byte, is_name_start};
pub use lexer::{SOURCE_LIMIT, tokens};
pub use number::{Literal, LiteralError, literal_of};
pub use place::{place_of, places};
pub use token::{Kind, LexError, Token};
