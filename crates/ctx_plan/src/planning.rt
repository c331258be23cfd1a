//! The making of the plan of a kernel.

ghost use Rattle.std.specs.Prelude.{◌≡◌, ◌*◌, map, sum, IfOk};
ghost use Rattle.wg_num.specs.Bytes as bytes;
ghost use Rattle.cl_model.specs.View.{array_of, program_of};
ghost use Rattle.cl_model.specs.Objects as objects;
ghost use Rattle.kir.specs.View.{kernel_of};
ghost use Rattle.ctx_plan.specs.Made.{private_of, bytes_among, plan_of};
ghost use Rattle.ctx_plan.specs.Planned.{IsCounted};
ghost use Rattle.ctx_plan.specs.View.{varying_of, planned_of};

use crate::cells::{Homes, homes_of};
use crate::holding::functions_hold;
use crate::keeping::named_across;
use crate::plan::Plan;
use crate::sharing::{sharing_of, sum_of};
use cl_model::{Array, Program, Space, bytes_of_array};
use diverge::Varying;
use kir::Kernel;
use std::alloc::Global;
use wg_num::{Memory, size_of};

/// The bytes of a private array; none of another.
fn bytes_of(array: &Array) -> Result<u32, Memory>
    ensures { IfOk result (λ n. n ≡ private_of (array_of array.now)) }
{
    if array.space != Space::Private {
        return Ok(0);
    }
    let bytes = bytes_of_array(array)?;
    match u32::try_from(bytes) {
        Ok(bytes) => Ok(bytes),
        Err(_) => Err(Memory),
    }
}

/// The bytes of the private arrays together.
fn private_bytes(arrays: &[Array]) -> Result<u32, Memory>
    ensures { IfOk result (λ n. n ≡ bytes_among (map array_of arrays.now)) }
{
    let mut sum: u32 = 0;
    for array in arrays {
        let bytes = bytes_of(array)?;
        sum = sum_of(sum, bytes)?;
    }
    Ok(sum)
}

/// The plan of a kernel that comes from the program, whose varying variables are given: a variable that crosses a
/// barrier has a once slot of its own where it does not vary, and a column where it varies, which variables of
/// disjoint scopes share; a keep has a column of its own. `Memory` where memory was refused, or a number would pass
/// 32 bits.
pub fn plan(
    alloc: Global,
    kernel: &Kernel,
    program: &Program,
    varying: &Varying,
) -> Result<Plan, Memory>
    ensures made { IfOk result (λ p. planned_of p ≡ plan_of (program_of program.now) (kernel_of kernel.now)
        (varying_of varying.now)) }
    ensures counted { IfOk result (λ p. IsCounted (kernel_of kernel.now) (planned_of p)) }
{
    let plan = made_plan(alloc, kernel, program, varying)?;
    Ok(plan)
}

fn made_plan(
    alloc: Global,
    kernel: &Kernel,
    program: &Program,
    varying: &Varying,
) -> Result<Plan, Memory>
    ensures { IfOk result (λ p. planned_of p ≡ plan_of (program_of program.now) (kernel_of kernel.now)
        (varying_of varying.now)) }
{
    let inside = functions_hold(alloc, &program.functions)?;
    let sharing = sharing_of(alloc, program, varying, &inside)?;
    let keeps = named_across(alloc, kernel.cells.len(), &kernel.body)?;
    let homes = homes_of(alloc, &sharing, varying, &kernel.cells, &keeps)?;
    let private_bytes = private_bytes(&kernel.arrays)?;
    let Homes {
        list,
        columns,
        slots,
    } = homes;
    Ok(Plan {
        homes: list,
        columns,
        slots,
        private_bytes,
    })
}
