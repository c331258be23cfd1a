//! Vectors of lanes: each lane of a result is what the definition of the operator gives for that
//! lane, at every width of a vector.
#![tactic(auto)]

pub mod access;
pub mod access32;
pub mod access64;
mod bits32;
mod bits64;
pub mod convert;
pub mod functions32;
pub mod functions64;
pub mod lanes32;
pub mod lanes64;
pub mod masks;
pub mod plain32;
pub mod plain64;
mod products32;
mod products64;
mod sums32;
mod sums64;
pub mod tally;

pub use access32::{gather32, scatter32, whole32};
pub use access64::{gather64, scatter64};
pub use convert::{convert32, convert64, low_words, narrow, widen, widened};
pub use functions32::{builtin32, lane_of32};
pub use functions64::{builtin64, lane_of64};
pub use lanes32::{binary32, shared_lane, unary32};
pub use lanes64::{binary64, pattern64, unary64};
pub use masks::{any, bytes_of, is_full, lowest, nonzero32, nonzero64, put32, put64, truths_of};
pub use plain32::{binary_plain32, same32};
pub use plain64::{binary_plain64, same64};
pub use tally::Tally;
