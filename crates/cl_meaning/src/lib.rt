//! What a unit means. First what the own words of a node of a syntax tree say: types, operators, known names,
//! numbers. Then conversions of operands, and constant expressions. Last the names that are visible at each node, the
//! faults of nodes, and the typed program for which a unit without faults stands: their definitions are in specs/,
//! and here are the plain types that they and the checker share.
#![tactic(auto)]

pub mod call;
pub mod constant;
pub mod conversions;
pub mod equal;
pub mod fault;
pub mod kind;
pub mod literals;
pub mod names;
pub mod operators;
mod own_words;
mod table;
pub mod types;

pub use call::Call;
pub use constant::{Constant, constant_of};
pub use conversions::{
    binary_type, common, counted, is_comparison, operand_type, promoted, right_type, type_of,
    unary_type,
};
pub use equal::{same_root, same_space};
pub use fault::Fault;
pub use kind::{Each, Entry, Kind, Meaning, Parameter, Reach, Role, Yield};
pub use literals::{literal, truth_of};
pub use names::{
    Flag, Intrinsic, dimensions_of, flag_of, intrinsic_of, is_kernel, is_set, requires_size,
};
pub use operators::{Postfix, Prefix, Setting, binary_of, postfix_of, prefix_of, setting_of};
pub use own_words::name_of;
pub use types::{Base, Declared, base_of, declared_of, is_const, is_outside, space_of};
