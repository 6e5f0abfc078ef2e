// One oblivious table lookup, written once over any group, and what is proved of it.
#![tactic(auto)]

pub mod group;
pub mod half;
pub mod steps;
pub mod theorems;
