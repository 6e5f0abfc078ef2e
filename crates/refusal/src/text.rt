// What programs print: refusals by number and values, seats by number, kinds by name.
use crate::kind::Kind;
use crate::refusal::Refusal;
use crate::seat::Seat;
use std::error::Error;
use std::fmt;

impl fmt::Display for Refusal {
    fn fmt<W: fmt::Write>(&self, f: &mut fmt::Formatter<W>) -> fmt::Result {
        write!(f, "refused {}", self.code())?;
        for value in self.values().as_slice() {
            write!(f, " {value}")?;
        }
        Ok(())
    }
}

impl Error for Refusal {}

impl fmt::Display for Seat {
    fn fmt<W: fmt::Write>(&self, f: &mut fmt::Formatter<W>) -> fmt::Result {
        write!(f, "{}", u8::from(*self))
    }
}

impl fmt::Display for Kind {
    fn fmt<W: fmt::Write>(&self, f: &mut fmt::Formatter<W>) -> fmt::Result {
        f.write_str(match self {
            Kind::Bit => "bit",
            Kind::Ring0 => "ring-0",
            Kind::Ring1 => "ring-1",
        })
    }
}
