//! Rounds of the three passes, until one changes nothing.

ghost use Rattle.std.specs.Prelude.{◌≡◌, IfOk};
ghost use Rattle.kir.specs.View.{kernel_of};
ghost use Rattle.kir_simplify.specs.Faithful.{IsFaithful};
ghost use Rattle.kir_simplify.specs.Passes.{round_of, simplified_of};
ghost use Rattle.kir_simplify.specs.Simple.{IsSimple};

use crate::folding::fold;
use crate::sizing::lines_size;
use crate::splicing::splice;
use crate::sweeping::sweep;
use kir::Kernel;
use std::alloc::Global;
use wg_num::Memory;

/// The kernel after a round: folded, then spliced, then swept. Memory where it was refused.
pub fn round(alloc: Global, kernel: Kernel) -> Result<Kernel, Memory>
    ensures exact { IfOk result (λ k. kernel_of k ≡ round_of (kernel_of kernel)) }
    ensures faithful { IfOk result (λ k. IsFaithful (kernel_of kernel) (kernel_of k)) }
{
    let folded = fold(alloc, kernel)?;
    let spliced = splice(alloc, folded)?;
    let swept = sweep(alloc, spliced)?;
    Ok(swept)
}

/// The kernel made simple: what is computed of constants alone is computed (by the rules of OpenCL 1.2,
/// 6.3, and C99, 6.5), branches that a constant chooses are taken, and no value is computed that no line
/// reads. It has the given kernel's parameters, cells, arrays, tables and sites, it is simple, and each
/// of its histories is one of the given kernel's. `Memory` where the allocator refuses.
pub fn simplify(alloc: Global, kernel: Kernel) -> Result<Kernel, Memory>
    ensures exact { IfOk result (λ k. kernel_of k ≡ simplified_of (kernel_of kernel)) }
    ensures simple { IfOk result (λ k. IsSimple (kernel_of k)) }
    ensures faithful { IfOk result (λ k. IsFaithful (kernel_of kernel) (kernel_of k)) }
{
    let mut simpler = kernel;
    loop {
        let before = lines_size(alloc, &simpler.body)?;
        simpler = round(alloc, simpler)?;
        let after = lines_size(alloc, &simpler.body)?;
        if after >= before {
            return Ok(simpler);
        }
    }
}
