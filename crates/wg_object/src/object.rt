//! What an object file holds.

ghost use Rattle.std.specs.Prelude.{◌≡◌, ◌≤◌, sum, is_some, IfSome, IsTrue, ◌↔◌};
ghost use Rattle.wg_object.specs.Limits.{local_most, private_most};

use lane_code::GroupProgram;

/// The most bytes of the local arrays of a kernel together, and of its private arrays.
const LOCAL_MOST: u64 = 65_536;

const PRIVATE_MOST: u64 = 16_384;

/// The program of a work-group, and the work-group size that its kernel requires, if it does
/// (OpenCL 1.2, section 6.7.2). Its local arrays have at most 65,536 bytes together, and its private
/// arrays at most 16,384.
#[derive(Drop)]
pub struct Object {
    pub group: GroupProgram,
    pub sizes: Option<[u64; 3]>,
    ghost locals: { sum group.locals.items ≤ local_most },
    ghost privates: { sum group.privates.items ≤ private_most },
}

/// Whether the numbers are together at most so many.
fn are_within(numbers: &[u64], most: u64) -> bool
    ensures { IsTrue result ↔ (sum numbers.now ≤ most) }
{
    let mut left = most;
    for n in numbers {
        if left < *n {
            return false;
        }
        left -= *n;
    }
    true
}

impl Object {
    /// The object of these; `None` exactly where the program's arrays have more bytes than an object
    /// may have.
    pub fn new(group: GroupProgram, sizes: Option<[u64; 3]>) -> Option<Object>
        ensures group { IfSome result (λ o. o.group ≡ group) }
        ensures sizes { IfSome result (λ o. o.sizes ≡ sizes) }
        ensures some { IsTrue (is_some result) ↔
            ((sum group.locals.items ≤ local_most) × (sum group.privates.items ≤ private_most)) }
    {
        if are_within(&group.locals, LOCAL_MOST) && are_within(&group.privates, PRIVATE_MOST) {
            Some(Object { group, sizes })
        } else {
            None
        }
    }
}
