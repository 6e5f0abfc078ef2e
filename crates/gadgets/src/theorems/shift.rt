// Shift of a shared number: what it computes, and what it costs.
ghost use Rattle.gadgets.specs.Shift.{ShiftComputes, ShiftFollows, ShiftTallies};

// The parties come to share the floor of the signed value over 2^s.
#[tactic(auto, using(crate::proofs::Shift::shift_computes))]
pub fn computes()
    ensures { ShiftComputes }
{}

// The lookups are a sign, the flip, a comparison and a conversion, or none where s is 0; the result has the number's width.
#[tactic(auto, using(crate::proofs::Shift::shift_follows))]
pub fn follows()
    ensures { ShiftFollows }
{}

// The price is two comparisons and two lookups of numbers.
#[tactic(auto, using(crate::proofs::Shift::shift_tallies))]
pub fn tallies()
    ensures { ShiftTallies }
{}
