//! What the plan of a kernel means: which variables cross, and that columns are shared by variables
//! of disjoint scopes alone.
#![tactic(auto)]
