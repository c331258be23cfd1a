//! Lane code: the steps of a chunk of work-items, the program of a work-group, and what they mean.
#![tactic(auto)]

mod checking;
pub mod code;
pub mod end;
pub mod listings;
pub mod operand;
pub mod parts;
pub mod program;
pub mod row;
pub mod step;
pub mod text;

pub use code::{Code, Counts, Node};
pub use end::{RegionEnd, RunEnd};
pub use listings::listing;
pub use parts::GroupParts;
pub use program::GroupProgram;
pub use step::{Bank, Reg, Step};
