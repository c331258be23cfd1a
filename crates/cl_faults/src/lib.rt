//! The kinds of expressions from the kinds of their parts, which kinds fit where, and the faults of a node of a unit:
//! which of them stands, from what is visible at the node and the kinds of its parts.
#![tactic(auto)]

pub mod arguments;
pub mod callees;
mod calls;
mod declarators;
pub mod fault;
pub mod fitting;
pub mod flags;
pub mod kinds;
mod labels;
pub mod looked;
mod misfits;
mod names;
mod operands;
pub mod operators;
pub mod parts;
pub mod reach;
pub mod settings;
mod signatures;
pub mod spread;
mod targets;

pub use callees::{arity_fits, call_fits, call_kind, call_result};
pub use fault::fault_at;
pub use looked::{Asked, Looked};
pub use operands::kind_of;
pub use reach::leads_back;
pub use spread::{Rows, rows_of};
