// The and of two shared bits: what it computes, and what it costs.
ghost use Rattle.gadgets.specs.And.{AndComputes, AndFollows, AndTallies};

// The parties come to share the and of the two bits.
#[tactic(auto, using(crate::proofs::And::and_computes))]
pub fn computes()
    ensures { AndComputes }
{}

// It takes one lookup of bits, and the result is a bit.
#[tactic(auto, using(crate::proofs::And::and_follows))]
pub fn follows()
    ensures { AndFollows }
{}

// The price is one lookup of bits.
#[tactic(auto, using(crate::proofs::And::and_tallies))]
pub fn tallies()
    ensures { AndTallies }
{}
