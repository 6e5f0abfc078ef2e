// The two seats, one of each party.
ghost use Rattle.std.specs.Prelude.{◌≡◌, ◌==◌};
ghost use Rattle.refusal.specs.Seats.{number, Seated};
ghost use Rattle.refusal.specs.Kinds.{sender};

use crate::kind::Kind;
use crate::refusal::Refusal;

#[derive(Clone, Copy, Debug, PartialEq, Eq, Hash)]
pub enum Seat {
    Zero,
    One,
}

impl From<Seat> for u8 {
    ghost from_gives = { λ seat n. n ≡ number seat };

    fn from(seat: Seat) -> u8 {
        seat as u8
    }
}

impl TryFrom<u8> for Seat {
    type Error = Refusal;

    ghost try_from_gives = { Seated };

    fn try_from(n: u8) -> Result<Seat, Refusal> {
        match n {
            0 => Ok(Seat::Zero),
            1 => Ok(Seat::One),
            _ => Err(Refusal::BadArgument),
        }
    }
}

impl Seat {
    // Whether the party at this seat has the sender's halves of a kind.
    pub fn sends(self, kind: Kind) -> bool
        ensures { result ≡ (number self == sender kind) }
    {
        kind.is_sent_by(u8::from(self))
    }
}
