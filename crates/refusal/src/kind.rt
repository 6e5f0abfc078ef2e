// The three kinds of correlation: how large their tables and fields are, and which seat sends.
ghost use Rattle.std.specs.Prelude.{◌≡◌, ◌≤◌, ◌==◌};
ghost use Rattle.refusal.specs.Seats.{number as seat_number};
ghost use Rattle.refusal.specs.Kinds.{number, Known, entries, mask_size, choice_size, sender};

use crate::refusal::Refusal;
use crate::seat::Seat;

// `Bit` correlations serve lookups of bits, `Ring0` and `Ring1` lookups of 32-bit numbers in which
// seat 0 or seat 1 sends.
#[derive(Clone, Copy, Debug, PartialEq, Eq, Hash)]
pub enum Kind {
    Bit,
    Ring0,
    Ring1,
}

impl From<Kind> for u8 {
    ghost from_gives = { λ kind n. n ≡ number kind };

    fn from(kind: Kind) -> u8 {
        kind as u8
    }
}

// The kind with a number; a number over 2 is refused.
impl TryFrom<u8> for Kind {
    type Error = Refusal;

    ghost try_from_gives = { Known };

    fn try_from(n: u8) -> Result<Kind, Refusal> {
        match n {
            0 => Ok(Kind::Bit),
            1 => Ok(Kind::Ring0),
            2 => Ok(Kind::Ring1),
            _ => Err(Refusal::BadArgument),
        }
    }
}

impl Kind {
    // Each kind once, in the order of the numbers.
    pub const ALL: [Kind; 3] = [Kind::Bit, Kind::Ring0, Kind::Ring1];

    // How many entries a table has.
    pub fn entries(self) -> u32
        ensures is { result ≡ entries self }
        ensures few { result ≤ 16 }
    {
        match self {
            Kind::Bit => 16,
            Kind::Ring0 | Kind::Ring1 => 4,
        }
    }

    // How many bits a mask or a blind has.
    pub fn mask_size(self) -> u32
        ensures { result ≡ mask_size self }
    {
        match self {
            Kind::Bit => 2,
            Kind::Ring0 | Kind::Ring1 => 32,
        }
    }

    // How many bits a choice has.
    pub fn choice_size(self) -> u32
        ensures { result ≡ choice_size self }
    {
        match self {
            Kind::Bit => 4,
            Kind::Ring0 | Kind::Ring1 => 2,
        }
    }

    // Whether the party at a seat has the sender's halves. The seat is a number, and any, since the functions
    // that tell the sizes of halves are asked of any: a `Seat` there would ask more of callers.
    pub fn is_sent_by(self, seat: u8) -> bool
        ensures { result ≡ (seat == sender self) }
    {
        seat == u8::from(self.sender())
    }

    // The seat that sends.
    pub fn sender(self) -> Seat
        ensures { seat_number result ≡ sender self }
    {
        match self {
            Kind::Bit | Kind::Ring0 => Seat::Zero,
            Kind::Ring1 => Seat::One,
        }
    }
}
