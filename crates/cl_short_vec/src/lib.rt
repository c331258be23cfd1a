//! Short vectors: which expressions of a unit are vectors, the conditions E501 to E503 on them, and the unit without
//! vectors that stands for a unit.
#![tactic(auto)]

pub mod form;
pub mod kinds;
mod made;
pub mod marks;
pub mod names;
mod nodes;
mod parts;
pub mod plain;
pub mod refuse;
pub mod roles;
mod scalar;
pub mod selections;
mod steps;
pub mod types;
mod unit;

pub use form::{VectorError, scalarise};
pub use kinds::{Kind, Reach};
pub use marks::{Marked, mark_unit};
pub use plain::has_vectors;
pub use refuse::{VectorFault, VectorRefusal, refusal};
pub use roles::Role;
pub use types::{Vector, vector_of, vector_type};
