// A shared number kept by a shared bit: what it computes, and what it costs.
ghost use Rattle.gadgets.specs.Keep.{KeepComputes, KeepFollows, KeepTallies};

// The parties come to share the number where the bit is 1, and else 0.
#[tactic(auto, using(crate::proofs::Keep::keep_computes))]
pub fn computes()
    ensures { KeepComputes }
{}

// It takes two lookups of numbers, and the result has the number's width.
#[tactic(auto, using(crate::proofs::Keep::keep_follows))]
pub fn follows()
    ensures { KeepFollows }
{}

// The price is one lookup of numbers in each direction.
#[tactic(auto, using(crate::proofs::Keep::keep_tallies))]
pub fn tallies()
    ensures { KeepTallies }
{}
