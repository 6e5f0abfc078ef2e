// Arithmetic of shared numbers: comparison by digits, sign, floor division and shift. Theory only.
#![tactic(auto)]

pub mod theorems;
