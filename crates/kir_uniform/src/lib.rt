//! When a kernel without calls is even in some of its cells: what its text must be like, so that work-items
//! of one group hold equal values of them wherever they stand.
#![tactic(auto)]
