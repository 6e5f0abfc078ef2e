// Deal sheets: a party's halves packed in bits, read where they lie.
#![tactic(auto)]

pub mod layout;
pub mod sheet;
pub mod theorems;
