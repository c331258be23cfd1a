//! The masked lane code of a region.
#![tactic(auto)]

mod atoms;
mod homes;
mod lines;
mod masks;
mod placing;
mod region;
mod registers;
mod setting;
mod work;

pub use region::lower_region;
