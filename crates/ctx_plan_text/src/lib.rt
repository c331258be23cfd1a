//! Which variables of a kernel are kept between its regions: the text of a plan.
#![tactic(auto)]

mod lines;
mod outline;
mod variables;

pub use lines::plan_text;
