//! The limits of a kernel with all that it calls: its weight, its private and local memory, and how deep its
//! barriers stand.
#![tactic(auto)]

pub mod barriers;
pub mod limit;
pub mod memory;
pub mod nodes;
pub mod points;
pub mod sums;

pub use barriers::heights;
pub use limit::limit_of;
pub use memory::{local_bytes, private_bytes};
pub use nodes::count_nodes;
pub use points::{Point, is_function, points_of};
pub use sums::totals;
