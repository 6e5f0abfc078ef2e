// What holds of each protocol: each theorem is a function's contract.
pub mod and;
pub mod comparison;
pub mod conversion;
pub mod division;
pub mod flip;
pub mod keep;
pub mod shift;
pub mod sign;
