//! Lists that grow.

ghost use Rattle.std.specs.Prelude.{◌≡◌, ◌∷◌, ◌++◌, [], OnOk, IfOk};

use crate::types::Memory;
use std::alloc::Global;

/// One item more at the end of a list.
pub fn push<T: Drop>(list: &mut Vec<T>, item: T) -> Result<(), Memory>
    ensures { OnOk result (list.new.items ≡ list.old.items ++ item ∷ []) }
{
    match list.push(item) {
        Ok(()) => Ok(()),
        Err(_) => Err(Memory),
    }
}

/// A list of the same numbers, kinds or places; `Memory` where none is to be had.
pub fn copy_list<T: Copy>(alloc: Global, items: &[T]) -> Result<Vec<T>, Memory>
    ensures { IfOk result (λ v. v.items ≡ items.now) }
{
    match Vec::from_slice(alloc, items) {
        Ok(copied) => Ok(copied),
        Err(_) => Err(Memory),
    }
}
