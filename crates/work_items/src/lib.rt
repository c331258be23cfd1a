//! Work-items over one shared memory, whatever an item is: its runs, races, clean launches and
//! outcomes, and the theorems that hold of them for every kind of item. No language stands in it.
#![tactic(auto)]
