//! How many bytes the arrays of a kernel have.

ghost use Rattle.std.specs.Prelude.{◌≡◌, map, IfOk};
ghost use Rattle.cl_model.specs.View.{array_of};
ghost use Rattle.item_loops.specs.Built.{is_space, array_sizes};

use cl_model::{Array, Space, bytes_of_array};
use std::alloc::Global;
use wg_num::Memory;

/// Whether the space is that of private memory, or else that of local memory.
fn is_in(private: bool, space: Space) -> bool
    ensures { result ≡ is_space private space }
{
    match space {
        Space::Private => private,
        Space::Local => !private,
        Space::Global | Space::Constant => false,
    }
}

/// The bytes of each private array, or else of each local array.
pub(crate) fn sizes_in(alloc: Global, private: bool, arrays: &[Array]) -> Result<Vec<u64>, Memory>
    ensures { IfOk result (λ v. v.items ≡ array_sizes private (map array_of arrays.now)) }
{
    let mut sizes = Vec::new(alloc);
    for array in arrays {
        if is_in(private, array.space) {
            let bytes = bytes_of_array(array)?;
            if sizes.push(bytes).is_err() {
                return Err(Memory);
            }
        }
    }
    Ok(sizes)
}
