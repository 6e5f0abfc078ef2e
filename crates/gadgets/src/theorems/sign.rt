// Sign of a shared number: what it computes, and what it costs.
ghost use Rattle.gadgets.specs.Sign.{SignComputes, SignFollows};

// The parties come to share whether the signed value is not negative.
#[tactic(auto, using(crate::proofs::Sign::sign_computes))]
pub fn computes()
    ensures { SignComputes }
{}

// It costs a comparison of the bits below the top, and the result is a bit.
#[tactic(auto, using(crate::proofs::Sign::sign_follows))]
pub fn follows()
    ensures { SignFollows }
{}
