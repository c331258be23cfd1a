//! The analysis of what varies is exact: what it marks is the least relation that obeys the rules.
#![tactic(auto)]

ghost use Rattle.cl_model.specs.View.{program_of};
ghost use Rattle.cl_model.specs.Valid.{IsValid};
ghost use Rattle.diverge.specs.Rounds.{varying_of};
ghost use Rattle.diverge_exact.specs.Says.{SaysVarying};

use cl_model::Program;

/// The lists that the analysis finds mark exactly the variables that vary: each that is marked
/// varies, and each that varies is marked.
pub fn exact_law(program: &Program)
    requires { IsValid (program_of program.now) }
    ensures { SaysVarying (program_of program.now) (varying_of (program_of program.now)) }
{}
