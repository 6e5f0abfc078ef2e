// Division of a shared number by a public one: what it computes, and what it costs.
ghost use Rattle.gadgets.specs.Division.{DivisionComputes, DivisionFollows, DivisionTallies};

// The parties come to share the floor of the signed value over d.
#[tactic(auto, using(crate::proofs::Division::division_computes))]
pub fn computes()
    ensures { DivisionComputes }
{}

// The lookups are a sign, the flip and three tests, or none where d is 1; the result has the number's width.
#[tactic(auto, using(crate::proofs::Division::division_follows))]
pub fn follows()
    ensures { DivisionFollows }
{}

// The price is two sorts of comparisons and four lookups of numbers.
#[tactic(auto, using(crate::proofs::Division::division_tallies))]
pub fn tallies()
    ensures { DivisionTallies }
{}
