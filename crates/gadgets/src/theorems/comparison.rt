// Comparison of two private numbers: what it computes, and what it costs.
ghost use Rattle.gadgets.specs.Comparison.{ComparisonComputes, ComparisonFollows, ComparisonTallies};

// The parties come to share whether seat 0's number is below seat 1's.
#[tactic(auto, using(crate::proofs::Comparison::comparison_computes))]
pub fn computes()
    ensures { ComparisonComputes }
{}

// Whatever the lookups give, there are as many as the price says, all of bits, and the result is a bit.
#[tactic(auto, using(crate::proofs::Comparison::comparison_follows))]
pub fn follows()
    ensures { ComparisonFollows }
{}

// The price is two lookups of bits for each digit of four bits, less one.
#[tactic(auto, using(crate::proofs::Comparison::comparison_tallies))]
pub fn tallies()
    ensures { ComparisonTallies }
{}
