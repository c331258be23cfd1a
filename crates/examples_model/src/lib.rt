//! Worked examples of what a launch means. The definitions compute, so each example is proved by
//! computing it: no test runs, and an example that does not hold is a failed proof.
#![tactic(auto)]

ghost use Rattle.examples_model.specs.Straight.{Increments, Wraps, Faults, FaultsBefore, Squares, Switches, Shares};
ghost use Rattle.examples_model.specs.Straight.{SomeCleared, Calls, TableSum, Indices, ColumnWide, ColumnHigh};
ghost use Rattle.examples_model.specs.Barriers.{Reverses, IsFresh, IsPassed, Parts, IterationsPart, Lengths, Meets};
ghost use Rattle.examples_model.specs.Barriers.{Scans, FallsThrough, ScansBack, MeetsBack, RaceOneWay, RaceOtherWay};
ghost use Rattle.examples_model.specs.Outcomes.{FinishedIsDone, FaultedIsRange, IsParting, IsNeverReleased, BothWait};
ghost use Rattle.examples_model.specs.Outcomes.{IterationsAreApart, NothingFollowsAFault, RaceIsNotClean};

/// Kernels without barriers end with the buffers, or the fault, that a reader of them expects.
pub fn straight_kernels()
    ensures increments { Increments }
    ensures wraps { Wraps }
    ensures faults { Faults }
    ensures faults_before { FaultsBefore }
    ensures squares { Squares }
    ensures switches { Switches }
    ensures shares { Shares }
    ensures some_cleared { SomeCleared }
    ensures calls { Calls }
    ensures table_sum { TableSum }
{}

/// Launches in two dimensions, with the ids that OpenCL 1.2, section 3.2, gives.
pub fn planes()
    ensures indices { Indices }
    ensures column_wide { ColumnWide }
    ensures column_high { ColumnHigh }
{}

/// Kernels with barriers: they meet at one point, or wait for ever.
pub fn barriers()
    ensures reverses { Reverses }
    ensures fresh { IsFresh }
    ensures passed { IsPassed }
    ensures parts { Parts }
    ensures iterations_part { IterationsPart }
    ensures lengths { Lengths }
    ensures meets { Meets }
    ensures scans { Scans }
    ensures falls_through { FallsThrough }
{}

/// Another order of the items leaves the same buffers, unless items race.
pub fn orders()
    ensures scans { ScansBack }
    ensures meets { MeetsBack }
    ensures race_one_way { RaceOneWay }
    ensures race_other_way { RaceOtherWay }
{}

/// What is played is a run of the launch, for every program: where it finishes or faults, that is
/// an outcome.
pub fn played_runs()
    ensures finished { FinishedIsDone }
    ensures faulted { FaultedIsRange }
{}

/// What must not happen: a group is not released while one of its items has ended, or while two of
/// them wait at one barrier in different iterations; nothing follows a fault; and items that race
/// are not clean.
pub fn refusals()
    ensures parted { IsParting }
    ensures never_released { IsNeverReleased }
    ensures both_wait { BothWait }
    ensures iterations_apart { IterationsAreApart }
    ensures over { NothingFollowsAFault }
    ensures not_clean { RaceIsNotClean }
{}
