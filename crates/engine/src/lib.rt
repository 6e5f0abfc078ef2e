// The twelve commands, and the certificate of the whole engine: each theorem is a function's contract.
#![tactic(auto)]

pub mod command;
pub mod theorems;
