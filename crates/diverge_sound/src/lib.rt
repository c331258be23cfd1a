//! Which variables agree: items of one group that stand at one point hold equal values of them.
#![tactic(auto)]

ghost use Rattle.cl_model.specs.View.{program_of, launch_of, buffers_of};
ghost use Rattle.cl_model.specs.Valid.{IsValid};
ghost use Rattle.cl_model.specs.Fitting.{FitsProgram};
ghost use Rattle.diverge_sound.specs.InRuns.{CarriesToRuns};
ghost use Rattle.diverge_sound.specs.Once.{AgreeUnlessVarying, AgreeInRunsUnlessVarying};
ghost use Rattle.diverge_sound.specs.Tests.{TestsAgreeUnlessVarying};

use cl_model::{Buffers, Launch, Program};

/// A variable that agrees at the ends of any two histories agrees in every run of the launch:
/// whenever two items of one group stand, at any two moments, at one point in its scope.
pub fn runs_law(program: &Program, launch: &Launch, buffers: &Buffers)
    requires valid { IsValid (program_of program.now) }
    requires fits { FitsProgram (program_of program.now) (launch_of launch.now) }
    ensures { CarriesToRuns (program_of program.now) (launch_of launch.now) (buffers_of buffers.now) }
{}

/// A variable that does not vary agrees, in each launch that fits, whether it races or not: whenever
/// two histories of items of one group end at one point in its scope, whatever their loads gave,
/// they hold equal values of it; and so whenever two items of one group stand, at any two moments of
/// a run, at one such point. A test or value that does not vary is found equal at one point.
pub fn once_law(program: &Program, launch: &Launch, buffers: &Buffers)
    requires valid { IsValid (program_of program.now) }
    requires fits { FitsProgram (program_of program.now) (launch_of launch.now) }
    ensures histories { AgreeUnlessVarying (program_of program.now) (launch_of launch.now) (buffers_of buffers.now) }
    ensures runs { AgreeInRunsUnlessVarying (program_of program.now) (launch_of launch.now) (buffers_of buffers.now) }
    ensures tests { TestsAgreeUnlessVarying (program_of program.now) (launch_of launch.now) (buffers_of buffers.now) }
{}
