//! What the kernel that a program is lowered to has to do with the program: its parts, its cells and
//! arrays, and what its items do.
#![tactic(auto)]
