//! A launch and the buffers on which it runs.

ghost use Rattle.std.specs.Prelude.{◌≡◌, IfOk, map};

use std::alloc::Global;
use wg_num::{Memory, Word};

/// What a launch binds to a kernel parameter: a buffer by its number, a value, or bytes of local
/// memory.
#[derive(Clone, Copy, PartialEq, Eq, Debug)]
pub enum Bound {
    Buffer(u32),
    Value(i128),
    Local(u64),
}

/// A launch in `dims` dimensions, 1 to 3 (OpenCL 1.2, section 3.2): global and local sizes in
/// work-items, offsets, the most loop iterations that its work-items may begin together, the
/// argument of each kernel parameter, and for each buffer its length in bytes, the file that it
/// starts as and the file that it is saved as. A dimension that the launch does not have is 1 in
/// both sizes and 0 in its offset.
#[derive(Drop)]
pub struct Launch {
    pub dims: u32,
    pub global: [u64; 3],
    pub local: [u64; 3],
    pub offset: [u64; 3],
    pub turns: u64,
    pub args: Vec<Bound>,
    pub lengths: Vec<u64>,
    pub loads: Vec<Option<Word>>,
    pub saves: Vec<Option<Word>>,
}

/// The bytes of each buffer.
#[derive(Drop)]
pub struct Buffers {
    pub list: Vec<Vec<u8>>,
}

impl Buffers {
    /// Buffers with the same bytes.
    pub fn copy(&self, alloc: Global) -> Result<Buffers, Memory>
        ensures { IfOk result (λ b. map (λ v. v.items) b.list.items ≡ map (λ v. v.items) self.now.list.items) }
    {
        let mut list = Vec::new(alloc);
        for bytes in self.list.iter() {
            match bytes.as_slice().to_vec(alloc) {
                Ok(copied) => {
                    if list.push(copied).is_err() {
                        return Err(Memory);
                    }
                }
                Err(_) => return Err(Memory),
            }
        }
        Ok(Buffers { list })
    }
}
