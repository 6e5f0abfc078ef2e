// A shared bit as a shared number: what it computes, and what it costs.
ghost use Rattle.gadgets.specs.Conversion.{ConversionComputes, ConversionFollows};

// The parties come to share the bit as a number of 32 bits.
#[tactic(auto, using(crate::proofs::Conversion::conversion_computes))]
pub fn computes()
    ensures { ConversionComputes }
{}

// It costs one lookup of numbers in which seat 0 sends.
#[tactic(auto, using(crate::proofs::Conversion::conversion_follows))]
pub fn follows()
    ensures { ConversionFollows }
{}
