// A deterministic source: halves made from a start number, for examinations and samples.
#![tactic(auto)]

pub mod dealer;
mod running;
