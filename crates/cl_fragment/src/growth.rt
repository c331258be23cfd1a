//! Lists that grow.

ghost use Rattle.std.specs.Prelude.{◌≡◌, ◌++◌, OnOk};

use wg_num::Memory;

/// The items of another list behind those of a list.
pub(crate) fn append<T: Drop>(list: &mut Vec<T>, mut later: Vec<T>) -> Result<(), Memory>
    ensures { OnOk result (list.new.items ≡ list.old.items ++ later.items) }
{
    match list.append(&mut later) {
        Ok(()) => Ok(()),
        Err(_) => Err(Memory),
    }
}
