//! Worked examples of kernels without calls: what their items do, and what is live, cut, kept and
//! crossing. The definitions compute, so each example is proved by computing it: no test runs, and
//! an example that does not hold is a failed proof.
#![tactic(auto)]

pub mod made;

ghost use Rattle.examples_kir.specs.Straight.{IsFit, Ends, TracesAgree, LivesBetween, FewLines};
ghost use Rattle.examples_kir.specs.Choice.{IsChoiceFit, IsStuck, ChoiceTracesAgree, StandsAtBarrier, CutsAtChoice};
ghost use Rattle.examples_kir.specs.Choice.{KeepsTest, CountsKeeps};
ghost use Rattle.examples_kir.specs.Rounds.{IsRoundFit, RoundEnds, RoundTracesAgree, PointsDiffer, CutsAtRound};
ghost use Rattle.examples_kir.specs.Rounds.{LivesInRound, KeepsNoAnswer, SamePlaceSameTasks};
ghost use Rattle.examples_kir.specs.Text.{ScanCrosses, ExitCrosses, BlocksApart, CalleeFirst, CalleeWithin};
ghost use Rattle.examples_kir.specs.Text.{DoBodyFirst};
ghost use Rattle.examples_kir.specs.Lowered.{MeetingIsLowered, HoldingMatches};
ghost use Rattle.examples_kir.specs.Uniform.{OwnIsNotEven, GroupsIsEven};

/// An increment in lines: a valid kernel, whose items do what those of the program do.
pub fn straight_lines()
    ensures fit { IsFit }
    ensures ends { Ends }
    ensures traces_agree { TracesAgree }
    ensures lives_between { LivesBetween }
    ensures few_lines { FewLines }
{}

/// An `if` that holds a barrier: where an item waits, where it can come, the cuts, and the keep of
/// its test.
pub fn choices()
    ensures fit { IsChoiceFit }
    ensures stuck { IsStuck }
    ensures traces_agree { ChoiceTracesAgree }
    ensures stands { StandsAtBarrier }
    ensures cuts { CutsAtChoice }
    ensures keeps { KeepsTest }
    ensures counts { CountsKeeps }
{}

/// A loop that holds a barrier: points with iterations begun, the cuts, what is live there, and no
/// keep for its answer.
pub fn rounds()
    ensures fit { IsRoundFit }
    ensures ends { RoundEnds }
    ensures traces_agree { RoundTracesAgree }
    ensures points { PointsDiffer }
    ensures cuts { CutsAtRound }
    ensures lives { LivesInRound }
    ensures keeps { KeepsNoAnswer }
    ensures places { SamePlaceSameTasks }
{}

/// Inlined texts: the variables that cross, in the order of their declarations, and scopes.
pub fn texts()
    ensures scan { ScanCrosses }
    ensures exit { ExitCrosses }
    ensures blocks { BlocksApart }
    ensures callee_first { CalleeFirst }
    ensures callee_within { CalleeWithin }
    ensures do_body_first { DoBodyFirst }
{}

/// The smallest kernel with a barrier and its lines meet all that is asked of a lowering; and where a
/// variable is kept over the barrier, histories, waits, parting, values and runs match.
pub fn lowered()
    ensures meeting { MeetingIsLowered }
    ensures holding { HoldingMatches }
{}

/// A kernel that keeps each item's own number over a barrier is not even in its cell; one that keeps
/// the number of the group is.
pub fn evenness()
    ensures own { OwnIsNotEven }
    ensures groups { GroupsIsEven }
{}
