//! Variables of a typed program hold values of their types, and its evaluations give values of theirs.
#![tactic(auto)]

ghost use Rattle.cl_model_typed.specs.Law.{StartsFit, StaysFit, EvaluationsGiveValues};

/// In a launch that fits a valid program each work-item fits at each step of its own, whatever its
/// loads give: its variables hold values of their types, and its list of values is as its tasks
/// expect. An evaluation leaves one value of the expression's type.
pub fn values_law()
    ensures starts { StartsFit }
    ensures stays { StaysFit }
    ensures evaluations { EvaluationsGiveValues }
{}
