// Writing deal sheets: any source drained into the caller's bytes.
#![tactic(auto)]

mod pen;
pub mod writer;
