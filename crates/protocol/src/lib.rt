// Two parties' courses run against each other, and sessions of commands: each theorem is a function's contract.
#![tactic(auto)]

pub mod runs;
pub mod sessions;
