//! Examples of codes on the lane machine, each on one group of 20 work-items; of flat steps, of listings and of vectors.
#![tactic(auto)]

mod example;

pub use example::Example;

#[cfg(test)]
mod flat;
#[cfg(test)]
mod listing;
#[cfg(test)]
mod tests;
#[cfg(test)]
mod vectors;
