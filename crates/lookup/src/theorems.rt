// What holds of a lookup in every group: each theorem is a function's contract.
ghost use Rattle.lookup.specs.Theorems.{SharesJoin, TableHidden, IndexHidden, PlacesGoRound};

use crate::group::Group;

// The receiver's share and the sender's join to the entry that was sought.
pub fn shares_join<G: Group>()
    ensures { SharesJoin G.operation }
{}

// What the receiver heard fits every other table of the sender, by exactly one half.
pub fn table_is_hidden<G: Group>()
    ensures { TableHidden G.operation }
{}

// What the sender heard fits every other index of the receiver, by exactly one half.
pub fn index_is_hidden<G: Group>()
    ensures { IndexHidden G.operation }
{}

// Differences of places are differences modulo the number of places.
pub fn places_go_round()
    ensures { PlacesGoRound }
{}
