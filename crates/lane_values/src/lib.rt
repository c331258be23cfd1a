//! What the lanes of a vector stand for, and what an operator, a load or a store makes of them, at
//! any width of a lane. There are definitions here and no calls: the meaning of lane code and the
//! contracts of the vectors cite the same ones.
#![tactic(auto)]
