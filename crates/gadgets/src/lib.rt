// The protocols on shared numbers, as courses of both parties: what they compute, and what they cost. Theory only.
#![tactic(auto)]

pub mod theorems;
