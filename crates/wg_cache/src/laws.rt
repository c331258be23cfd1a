//! What holds of keys, names and entries.

ghost use Rattle.wg_cache.specs.Laws.{KeyLaw, NameLaw, EntryLaw};

/// Keys of different sources, numbers for names, kernels or lanes differ.
pub fn key_law()
    ensures { KeyLaw }
{}

/// The name of each key begins with `wgcc-cache-`.
pub fn name_law()
    ensures { NameLaw }
{}

/// Bytes are the entry of one key at most, with one object.
pub fn entry_law()
    ensures { EntryLaw }
{}
