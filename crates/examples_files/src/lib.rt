//! Examples of stores and sinks, of words and numbers in bytes, of object files and what is kept of them in a store,
//! and of the programs, launches and buffers that the model's laws answer.
#![tactic(auto)]

#[cfg(test)]
mod kept;
#[cfg(test)]
mod numbers;
#[cfg(test)]
mod objects;
#[cfg(test)]
mod programs;
#[cfg(test)]
mod stores;
