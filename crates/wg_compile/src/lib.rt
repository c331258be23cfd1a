//! A typed program through the passes to the program of a work-group, and what says that it is right.
#![tactic(auto)]

ghost use Rattle.std.specs.Prelude.{◌≡◌, IfOk};
ghost use Rattle.wg_num.specs.Operators.{lanes_of};
ghost use Rattle.cl_meaning.specs.View.{unit_of};
ghost use Rattle.cl_check_sound.specs.Erased.{program_of};
ghost use Rattle.cl_model.specs.Valid.{IsValid};
ghost use Rattle.wg_compile.specs.Correct.{IsCompilation, KeepsOnceIn};

use cl_model::Program;
use ctx_plan::Plan;
use ctx_plan::planning::plan;
use diverge::{Varying, analyse};
use item_loops::build;
use kir::Kernel;
use kir_lower::lower;
use kir_simplify::simplify;
use lane_code::GroupProgram;
use lane_tidy::tidied::tidy_program;
use regions::{RegionTree, split};
use std::alloc::Global;
use wg_num::{Memory, Width, Word};

/// A kernel with what each pass answers, in the order of the calls.
#[derive(Drop)]
pub struct Compiled {
    /// The typed program, as the checker leaves it.
    pub program: Program,
    /// The kernel without calls, of `lower`, made simple by `simplify`.
    pub kernel: Kernel,
    /// Which variables vary between the work-items of a group, of `analyse`.
    pub varying: Varying,
    /// Where the kernel's cells are kept between its regions, of `plan`.
    pub plan: Plan,
    /// The kernel cut at its barriers, of `split`.
    pub regions: RegionTree,
    /// The program of a work-group, of `build`, with its codes made shorter by `tidy_program`.
    pub group: GroupProgram,
}

/// The kernel of a typed program, under this name, at a lane width: the passes, one after the other.
/// What each answers is its function of the program; of a valid program (OpenCL 1.2, 6.11 and the
/// clauses that `docs/MEANING.md` names) all are correct, each as its field of `IsCorrect` says, so that
/// the program of a work-group ends in outcomes of the program in each launch that fits. What the kernel
/// of a valid program keeps once for a work-group has equal values in all its work-items, whatever is
/// answered. `Memory` where none is to be had, and at the places of the passes in `docs/OUT_OF_MEMORY.md`.
pub fn compile_program(
    alloc: Global,
    program: Program,
    name: &Word,
    width: Width,
) -> Result<Compiled, Memory>
    ensures program { IfOk result (λ c. unit_of c.program ≡ unit_of program) }
    ensures name { IfOk result (λ c. c.group.kernel ≡ name.now) }
    ensures passes { IfOk result (λ c. IsCompilation (lanes_of width) c) }
    ensures once { IsValid (program_of (unit_of program)) → KeepsOnceIn (unit_of program) }
{
    // `lowered`: kir_lower_shape, kir_lower_simulation, kir_lower_uniform
    let lowered = lower(alloc, &program)?;
    // `simplified`: clauses of `simplify`
    let kernel = simplify(alloc, lowered)?;
    // `varies`: diverge_exact; that what does not vary agrees: diverge_sound
    let varying = analyse(alloc, &program)?;
    // `homes`, `once`: ctx_plan_correct
    let plan = plan(alloc, &kernel, &program, &varying)?;
    // its runs are interleavings: clauses of `split`
    let regions = split(alloc, &kernel)?;
    // `codes`: mask_lower_correct, of the code of each region; `regions`, `groups`: item_loops
    let built = build(alloc, &regions, &plan, &kernel, name, width)?;
    // `tidied`: lane_tidy, of each code
    let group = tidy_program(alloc, built)?;
    Ok(Compiled {
        program,
        kernel,
        varying,
        plan,
        regions,
        group,
    })
}
