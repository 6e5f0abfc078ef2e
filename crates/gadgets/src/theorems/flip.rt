// The flip of two signed shares: what it computes, and what it costs.
ghost use Rattle.gadgets.specs.Flip.{FlipComputes, FlipFollows};

// The parties come to share how often 2^w is in the sum of their signed shares besides the signed value.
#[tactic(auto, using(crate::proofs::Flip::flip_computes))]
pub fn computes()
    ensures { FlipComputes }
{}

// It costs one lookup of numbers in which seat 0 sends.
#[tactic(auto, using(crate::proofs::Flip::flip_follows))]
pub fn follows()
    ensures { FlipFollows }
{}
