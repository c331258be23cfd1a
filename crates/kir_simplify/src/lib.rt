//! Kernels made simple: constants computed beforehand, and no line that only stands for another.
#![tactic(auto)]

mod adding;
mod counting;
pub mod folding;
mod offsets;
mod reading;
pub mod rounds;
mod settling;
mod sizing;
pub mod splicing;
pub mod sweeping;

ghost use Rattle.cl_model.specs.View.{program_of};
ghost use Rattle.kir.specs.View.{kernel_of};
ghost use Rattle.kir.specs.Lowering.{names_of, IsLoweringOf};
ghost use Rattle.std.specs.Prelude.{◌≡◌};
ghost use Rattle.kir_simplify.specs.Faithful.{IsFaithful};
ghost use Rattle.kir_simplify.specs.Passes.{folded_of, spliced_of, swept_of, simplified_of};
ghost use Rattle.kir_simplify.specs.Simple.{IsSimple};

use cl_model::Program;
pub use folding::fold;
use kir::Kernel;
pub use rounds::{round, simplify};
pub use splicing::splice;
pub use sweeping::sweep;

/// What comes from a program and is simplified comes from the program.
pub fn lowering_law(program: &Program, kernel: &Kernel, simple: &Kernel)
    ensures { IsLoweringOf (program_of program.now) (names_of program.now) (kernel_of kernel.now) →
        IsFaithful (kernel_of kernel.now) (kernel_of simple.now) →
        IsLoweringOf (program_of program.now) (names_of program.now) (kernel_of simple.now) }
{}

/// A kernel whose constants are computed beforehand does what the given one does.
pub fn folding_law(kernel: &Kernel, folded: &Kernel)
    requires { kernel_of folded.now ≡ folded_of (kernel_of kernel.now) }
    ensures { IsFaithful (kernel_of kernel.now) (kernel_of folded.now) }
{}

/// A kernel in which no constant chooses a branch does what the given one does.
pub fn splicing_law(kernel: &Kernel, spliced: &Kernel)
    requires { kernel_of spliced.now ≡ spliced_of (kernel_of kernel.now) }
    ensures { IsFaithful (kernel_of kernel.now) (kernel_of spliced.now) }
{}

/// A kernel without the values that no line reads does what the given one does.
pub fn sweeping_law(kernel: &Kernel, swept: &Kernel)
    requires { kernel_of swept.now ≡ swept_of (kernel_of kernel.now) }
    ensures { IsFaithful (kernel_of kernel.now) (kernel_of swept.now) }
{}

/// What is faithful to a kernel that is faithful to another is faithful to that one.
pub fn chain_law(kernel: &Kernel, mid: &Kernel, last: &Kernel)
    ensures { IsFaithful (kernel_of kernel.now) (kernel_of mid.now) →
        IsFaithful (kernel_of mid.now) (kernel_of last.now) →
        IsFaithful (kernel_of kernel.now) (kernel_of last.now) }
{}

/// The simplification of a kernel is simple.
pub fn simple_law(kernel: &Kernel)
    ensures { IsSimple (simplified_of (kernel_of kernel.now)) }
{}
