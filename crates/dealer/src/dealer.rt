// A dealer: a seat, a count of halves for each kind, and a running number for each kind.
use refusal::per_kind::PerKind;
use refusal::seat::Seat;

pub mod deals;

#[derive(Drop)]
pub struct Dealer {
    seat: Seat,
    running: PerKind<u64>,
    counts: PerKind<u32>,
}
