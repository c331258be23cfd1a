// What is bound and run of a kernel, whatever made it.
ghost use Rattle.std.specs.Prelude.{◌≡◌, IfOk, map};

use crate::shared::SharedKernel;
use cl_model::Program;
use lane_code::GroupProgram;
use std::alloc::Global;
use wg_num::{Memory, push};

/// A kernel that is bound and run: a program whose kernel says which launches it takes, and the program
/// of a work-group.
#[derive(Clone, Copy)]
pub(crate) struct Runnable<'k> {
    pub(crate) program: &'k Program,
    pub(crate) group: &'k GroupProgram,
}

/// The two of each compiled kernel.
pub(crate) fn runnables<'k>(
    alloc: Global,
    kernels: &'k [SharedKernel],
) -> Result<Vec<Runnable<'k>>, Memory>
    ensures programs { IfOk result (λ v. map (λ r. r.program.now) v.items ≡ map (λ c. c.program) kernels.now) }
    ensures groups { IfOk result (λ v. map (λ r. r.group.now) v.items ≡ map (λ c. c.group) kernels.now) }
{
    let mut list = Vec::new(alloc);
    for kernel in kernels {
        let compiled = kernel.compiled();
        let runnable = Runnable {
            program: &compiled.program,
            group: &compiled.group,
        };
        push(&mut list, runnable)?;
    }
    Ok(list)
}
