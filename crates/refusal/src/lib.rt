// The engine's common vocabulary: seats, kinds of correlation, one value for each kind, and refusals.
#![tactic(auto)]

pub mod kind;
pub mod per_kind;
pub mod refusal;
pub mod seat;
pub mod text;
