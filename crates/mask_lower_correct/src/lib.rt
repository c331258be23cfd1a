//! Laws of the code of regions: what it does on a chunk, the chunk's items do in some order of their
//! moves.
#![tactic(auto)]
