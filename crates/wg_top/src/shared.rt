// A compiled kernel that several launches may have in common.
ghost use Rattle.std.specs.Prelude.{◌≡◌, IfOk};

use std::alloc::Global;
use std::marker::Model;
use std::rc::Rc;
use wg_compile::Compiled;
use wg_num::Memory;

/// A compiled kernel, which a contract sees as it is. Each launch that names it has one of these,
/// and all of them together hold it once.
#[derive(Drop)]
pub(crate) struct SharedKernel {
    compiled: Rc<Compiled>,
}

impl Model for SharedKernel {
    ghost use Rattle.std.specs.Coded.{codes};
    ghost use Rattle.cl_model.specs.contracts.program.Program as program;
    ghost use Rattle.kir.specs.contracts.kernel.Kernel as kernel;
    ghost use Rattle.diverge.specs.contracts.rounds.Varying as varying;
    ghost use Rattle.ctx_plan.specs.contracts.plan.Plan as plan;
    ghost use Rattle.regions.specs.contracts.region.RegionTree as regions;
    ghost use Rattle.lane_code.specs.contracts.program.GroupProgram as group;
    ghost use Rattle.wg_compile.specs.declared.Compiled.{Compiled};

    ghost Value = { Compiled };

    ghost coded = { Prim.hlevel (
      codes,
      program.the_row.coded,
      kernel.the_row.coded,
      varying.the_row.coded,
      plan.the_row.coded,
      regions.the_row.coded,
      group.the_row.coded,
    ) };

    ghost view = { λ k. k.compiled.value };
}

impl SharedKernel {
    /// The kernel, held by one launch; `Memory` where there is none for it.
    pub(crate) fn new(alloc: Global, compiled: Compiled) -> Result<SharedKernel, Memory>
        ensures { IfOk result (λ k. k ≡ compiled) }
    {
        match Rc::new(alloc, compiled) {
            Ok(compiled) => Ok(SharedKernel { compiled }),
            Err(_) => Err(Memory),
        }
    }

    /// The same kernel, held by one launch more; it is not copied, and takes no memory. `Memory`
    /// where it is held as often as can be counted.
    pub(crate) fn share(&self) -> Result<SharedKernel, Memory>
        ensures { IfOk result (λ k. k ≡ self.now) }
    {
        match self.compiled.clone() {
            Ok(compiled) => Ok(SharedKernel { compiled }),
            Err(_) => Err(Memory),
        }
    }

    /// The kernel.
    pub(crate) fn compiled(&self) -> &Compiled
        ensures { result.now ≡ self.now }
    {
        &self.compiled
    }
}
