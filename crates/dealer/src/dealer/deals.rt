// What a dealer deals: it is a source, and two dealers alike are a lawful deal.
ghost use Rattle.std.specs.Prelude.{◌≡◌, ◌+◌, ◌-◌, ◌%◌, ◌^◌, ◌<◌, MatchResult};
ghost use Rattle.refusal.specs.declared.kind.Kind.{Kind as KindOf};
ghost use Rattle.refusal.specs.Kinds.{number};
ghost use Rattle.refusal.specs.Refusals.{code, plain};
ghost use Rattle.refusal.specs.Seats.{number as seat_number};
ghost use Rattle.refusal.specs.PerKinds.{at, with_at};
ghost use Rattle.refusal.specs.declared.refusal.Layer.TheVariants.{Dealer as DealerLayer};
ghost use Rattle.sources.specs.Halves.{Lawful};
ghost use Rattle.dealer.specs.Ranges.{dealt_in_range};
ghost use Rattle.dealer.specs.Dealers.{dealer_owner, dealer_left, Made, LawfulDeal};

use crate::dealer::Dealer;
use crate::running::half;
use refusal::kind::Kind;
use refusal::per_kind::PerKind;
use refusal::refusal::{Layer, Refusal};
use refusal::seat::Seat;
use sources::source::{Half, Source, enough};

// Where the kinds run from: the start plus the kind's number.
fn running_from(start: u64) -> PerKind<u64>
    ensures { (k : KindOf) → at result k ≡ (start + number k) % 2 ^ 64 }
{
    PerKind {
        bit: start,
        ring0: start.wrapping_add(1),
        ring1: start.wrapping_add(2),
    }
}

impl Dealer {
    // A dealer at a seat, from a start number, with so many halves of each kind. The seat is a number,
    // since the rules have one over 1 refused.
    pub fn new(seat: u8, start: u64, counts: PerKind<u32>) -> Result<Dealer, Refusal>
        ensures { MatchResult result (Made seat start counts) (λ e. (1 < seat) × (code e ≡ plain 8)) }
    {
        Ok(Dealer::seated(Seat::try_from(seat)?, start, counts))
    }

    fn seated(seat: Seat, start: u64, counts: PerKind<u32>) -> Dealer
        ensures { Made (seat_number seat) start counts result }
    {
        Dealer {
            seat,
            running: running_from(start),
            counts,
        }
    }

    // One half of a kind fewer, and its running number as it follows.
    fn move_on(&mut self, kind: Kind, running: u64)
        ensures seat { self.new.seat ≡ self.old.seat }
        ensures counts { self.new.counts ≡ with_at kind (at self.old.counts kind - 1) self.old.counts }
        ensures running { self.new.running ≡ with_at kind running self.old.running }
    {
        self.counts.lower(kind);
        self.running.put(kind, running);
    }
}

// Two dealers with the same start and counts, at seats 0 and 1, are a lawful deal.
pub fn dealers_are_lawful()
    ensures { LawfulDeal }
{}

// The dealers of both seats, a lawful deal.
pub fn deal(start: u64, counts: PerKind<u32>) -> (Dealer, Dealer)
    ensures first { Made 0 start counts result.0 }
    ensures second { Made 1 start counts result.1 }
    ensures lawful { Lawful (dealer_left result.0) (dealer_left result.1) }
{
    (
        Dealer::seated(Seat::Zero, start, counts),
        Dealer::seated(Seat::One, start, counts),
    )
}

impl Source for Dealer {
    ghost owner = { dealer_owner };

    ghost left = { dealer_left };

    ghost layer = { λ _ _. DealerLayer };

    ghost ranges = { λ s k. dealt_in_range (dealer_owner s) k (at s.counts k) (at s.running k) };

    fn seat(&self) -> Seat {
        self.seat
    }

    #[tactic(auto, using(crate::proofs::Steps::length_dealt))]
    fn check(&self, kind: Kind, count: u32) -> Result<(), Refusal> {
        enough(kind, self.counts.get(kind), count, Layer::Dealer)
    }

    fn take(&mut self, kind: Kind) -> Result<Half, Refusal> {
        self.check(kind, 1)?;
        let (taken, running) = half(self.seat, kind, self.running.get(kind));
        self.move_on(kind, running);
        Ok(taken)
    }
}
