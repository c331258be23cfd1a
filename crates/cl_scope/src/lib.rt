//! What is visible at a node of a syntax tree while the checker walks through it: scopes, what a function
//! has declared so far, and what is around the node.
#![tactic(auto)]

pub mod between;
pub mod declarator;
pub mod declare;
pub mod environment;
pub mod leaving;
pub mod lookup;
mod scopes;
pub mod signature;
pub mod table;
pub mod walk;

pub use between::later;
pub use declarator::{
    Declarator, MOST_ELEMENTS, declarator_in, dims_of, each_of, first_type, has_list,
    initialiser_count, length_in, second_star, star_in,
};
pub use declare::{kept_in, last_kind, place_of, pointed_space};
pub use environment::{Environment, Labels, Names, Owner, Signature};
pub use leaving::{leave, start};
pub use lookup::{
    Callee, Definition, callee_of, definition_of, is_announced, is_at_outermost, is_at_unit,
    is_declared, is_flag, kind_of_meaning, meaning_of, name_kind,
};
pub use signature::{definitions_in, parameter_of, signature_in, sizes_in, yield_of};
pub use walk::{Body, Inner, Saved, enter, restore};
