//! Compiled kernels that are kept in files, each under the digest of what it was compiled from.
#![tactic(auto)]

mod entries;
mod keys;
mod laws;
mod puts;
mod types;

pub use entries::{entry, find, keep};
pub use keys::{is_cache_name, key};
pub use laws::{entry_law, key_law, name_law};
pub use types::{Entry, Key};
