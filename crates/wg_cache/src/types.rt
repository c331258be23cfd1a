//! What names a compiled kernel, and what is kept of it.

use wg_num::Word;

/// What a kernel is compiled from, as bytes, and the name of the file that keeps it: `wgcc-cache-` and the
/// SHA-256 of the bytes (FIPS 180-4) as 64 digits.
#[derive(Drop)]
pub struct Key {
    pub name: Word,
    pub bytes: Vec<u8>,
}

/// A compiled kernel behind its key, and the name of its file.
#[derive(Drop)]
pub struct Entry {
    pub name: Word,
    pub bytes: Vec<u8>,
}
