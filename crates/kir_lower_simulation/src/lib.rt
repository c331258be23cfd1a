//! That each history of an item of the kernel that a program is lowered to has a matching history of
//! the program's item: a simulation, construct by construct.
#![tactic(auto)]
