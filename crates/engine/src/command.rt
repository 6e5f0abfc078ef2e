// The twelve commands, and what a party is answered for one that it carried out.
use refusal::per_kind::PerKind;

// N is what is handed in: to a party its own number, at a session both parties' numbers. Registers and
// seats are numbers, since the rules have one out of range refused.
#[derive(Clone, Copy, Debug, PartialEq, Eq, Hash)]
pub enum Command<N> {
    // Fills a number register with a share of each party.
    Lodge {
        target: u8,
        width: u8,
        number: N,
    },
    Add {
        target: u8,
        left: u8,
        right: u8,
    },
    Subtract {
        target: u8,
        left: u8,
        right: u8,
    },
    Scale {
        target: u8,
        source: u8,
        factor: u32,
    },
    // Fills a bit register: whether seat 0's number is below seat 1's, unsigned.
    Less {
        target: u8,
        width: u8,
        number: N,
    },
    // Fills a bit register: whether the signed value is not negative.
    Sign {
        target: u8,
        source: u8,
    },
    // The "and" of two bits.
    Both {
        target: u8,
        left: u8,
        right: u8,
    },
    // The number if the bit is 1, and else 0.
    Keep {
        target: u8,
        number: u8,
        bit: u8,
    },
    // The floor of the signed value over the divisor.
    Divide {
        target: u8,
        source: u8,
        divisor: u32,
    },
    // The floor of the signed value over a power of two.
    Shift {
        target: u8,
        source: u8,
        places: u8,
    },
    // Shows a number to the party at a seat.
    Open {
        source: u8,
        seat: u8,
    },
    // Shows a bit to the party at a seat.
    Tell {
        source: u8,
        seat: u8,
    },
}

// What seat 0 and seat 1 hand in. A struct of its own, since the theory names its two fields.
#[derive(Clone, Copy, Debug, PartialEq, Eq, Hash)]
pub struct Numbers {
    pub of0: u32,
    pub of1: u32,
}

// Correlations by kind, and messages, that a command used.
#[derive(Clone, Copy, Debug, PartialEq, Eq, Hash)]
pub struct Receipt {
    pub used: PerKind<u32>,
    pub messages: u32,
}
