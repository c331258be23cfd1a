//! Why the kernel that a program is lowered to is even in the cells of the variables that do not vary, and which
//! cells are live at its cuts.
#![tactic(auto)]
