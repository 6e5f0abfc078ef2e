// The interface of a source of halves.
ghost use Rattle.std.specs.Prelude.{◌≡◌, ℕ, ◌-◌, ◌<◌, ◌≤◌, [], MatchResult};
ghost use Rattle.std.specs.List.{AllByRecursion};
ghost use Rattle.refusal.specs.declared.kind.Kind.{Kind as KindOf};
ghost use Rattle.refusal.specs.declared.refusal.Layer.{Layer as LayerOf};
ghost use Rattle.refusal.specs.Refusals.{code, short};
ghost use Rattle.refusal.specs.Seats.{number};
ghost use Rattle.sources.specs.Halves.{Halves, InRange, width as width_of};
ghost use Rattle.sources.specs.Calls.{Checks, Takes, Affords, Draws};

use arrayvec::ArrayVec;
use refusal::kind::Kind;
use refusal::refusal::{Layer, Refusal, Shortage};
use refusal::seat::Seat;

// No half has more words: 16 masks and a blind.
pub const MOST_WORDS: usize = 17;

// A half as it comes off a source's list, one field a word.
pub type Half = ArrayVec<u32, MOST_WORDS>;

// How many words a seat's half of a kind has. The seat is a number, and any: a `Seat` would ask more of
// callers.
pub fn width(seat: u8, kind: Kind) -> usize
    ensures is { result ≡ width_of seat kind }
    ensures few { result ≤ 17 }
{
    if kind.is_sent_by(seat) {
        kind.entries() as usize + 1
    } else {
        2
    }
}

// Whether `have` halves of a kind serve for as many as are asked for, and else the shortage.
pub fn enough(kind: Kind, have: u32, asked: u32, layer: Layer) -> Result<(), Refusal>
    ensures { MatchResult result (λ _. asked ≤ have) (λ e. (have < asked) × (code e ≡ short kind (asked - have) layer)) }
{
    if have < asked {
        return Err(Refusal::Short(Shortage {
            kind,
            lacking: asked - have,
            layer,
        }));
    }
    Ok(())
}

// A source stands for a seat and, of each kind, the list of halves not yet drawn.
pub trait Source {
    // The seat whose halves these are.
    ghost owner: { Self → ℕ };

    ghost left: { Self → Halves };

    // What a shortage of a kind gives as its layer.
    ghost layer: { Self → KindOf → LayerOf };

    // Halves that it holds back, which no call changes: none, where an `impl` does not say.
    ghost past: { Self → Halves } = { λ _ _. [] };

    // Each field of each half is in range: what every `impl` proves.
    ghost ranges: { (s : Self) (k : KindOf) → AllByRecursion (InRange (owner s) k) (left s k) };

    fn seat(&self) -> Seat
        ensures { number result ≡ owner self.now };

    // Whether so many halves of a kind are left.
    fn check(&self, kind: Kind, count: u32) -> Result<(), Refusal>
        ensures { Checks (left self.now) (layer self.now) kind count result };

    // Takes the first half of a kind off the list. That owner, layer and past stay are clauses, here and at
    // each call that takes: they tie a source before to the same after, which no field of either can say.
    fn take(&mut self, kind: Kind) -> Result<Half, Refusal>
        ensures takes { Takes (owner self.old) (left self.old) (left self.new) (layer self.old) kind result }
        ensures owner { owner self.new ≡ owner self.old }
        ensures layer { layer self.new ≡ layer self.old }
        ensures past { past self.new ≡ past self.old };

    // `check` of a kind by its number: a number, since the rules have one over 2 refused.
    fn afford(&self, kind: u8, count: u32) -> Result<(), Refusal>
        ensures { Affords (left self.now) (layer self.now) kind count result }
    {
        self.check(Kind::try_from(kind)?, count)
    }

    // `take` of a kind by its number, as above: writes the half in front of the words that are lent, as the
    // rules have it, one field a word, and answers how many words it has.
    fn draw(&mut self, kind: u8, words: &mut [u32]) -> Result<usize, Refusal>
        ensures draws { Draws (owner self.old) (left self.old) (left self.new) (layer self.old) kind words.old words.new result }
        ensures owner { owner self.new ≡ owner self.old }
        ensures layer { layer self.new ≡ layer self.old }
        ensures past { past self.new ≡ past self.old }
    {
        let kind = Kind::try_from(kind)?;
        if words.len() < MOST_WORDS {
            return Err(Refusal::PlaceTooShort);
        }
        let half = self.take(kind)?;
        words[..half.len()].copy_from_slice(half.as_slice());
        Ok(half.len())
    }
}
