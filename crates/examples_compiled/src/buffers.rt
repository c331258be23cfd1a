//! Buffers of the lengths that a launch has.
ghost use Rattle.std.specs.Prelude.{◌≡◌, IfOk, length};
ghost use Rattle.cl_model.specs.View.{buffers_of, launch_of};
ghost use Rattle.cl_model.specs.Fitting.{FitBuffers};

use cl_model::{Buffers, Launch};
use std::alloc::Global;
use wg_num::{Memory, push};

/// So many bytes, which are the numbers 0, 1, 2 and so on as 32-bit words.
fn counted(alloc: Global, count: u64) -> Result<Vec<u8>, Memory>
    ensures { IfOk result (λ bytes. length bytes.items ≡ count) }
{
    let mut bytes = Vec::new(alloc);
    for at in 0..count {
        let byte = if at % 4 == 0 { (at / 4) % 256 } else { 0 };
        push(&mut bytes, byte as u8)?;
    }
    Ok(bytes)
}

/// Buffers of the lengths that the launch has, each with the numbers 0, 1, 2 and so on.
pub fn buffers_for(alloc: Global, launch: &Launch) -> Result<Buffers, Memory>
    ensures { IfOk result (λ b. FitBuffers (launch_of launch.now) (buffers_of b)) }
{
    let mut list = Vec::new(alloc);
    for count in launch.lengths.iter() {
        let bytes = counted(alloc, *count)?;
        push(&mut list, bytes)?;
    }
    Ok(Buffers { list })
}
