//! Examples of short vectors: what is told of small units, and the unit without vectors that stands for one.
#![tactic(auto)]

#[cfg(test)]
mod tests;
