// Why a call did not go ahead: one type for the whole engine.
ghost use Rattle.std.specs.Prelude.{◌≡◌};
ghost use Rattle.refusal.specs.Refusals.{code, layer_number, shortage_values, CodesTellApart};

use crate::kind::Kind;
use arrayvec::ArrayVec;

// Which kind of source ran short.
#[derive(Clone, Copy, Debug, PartialEq, Eq, Hash)]
pub enum Layer {
    Sheet,
    Dealer,
    Quota,
}

// A source has fewer halves of a kind than were asked for.
#[derive(Clone, Copy, Debug, PartialEq, Eq, Hash)]
pub struct Shortage {
    pub kind: Kind,
    pub lacking: u32,
    pub layer: Layer,
}

#[derive(Clone, Copy, Debug, PartialEq, Eq, Hash)]
pub enum Refusal {
    // The two parties of a session are not at seats 0 and 1, in this order.
    SeatsWrong,
    // A command is under way, or the parties differ in what is filled or how wide.
    BusyOrUnlike,
    // A message waits, or the channel holds none, or its longest message is below 16 words.
    ChannelUnfit,
    // A register over 31.
    NoSuchRegister,
    // A width outside 2 to 32.
    BadWidth,
    EmptyOperand,
    WidthsDiffer,
    // A constant, a seat or a kind that there is not.
    BadArgument,
    // A party cannot pay for a command. The party is a number: a `Seat` would ask more of who makes one.
    CorrelationsShort { party: u8, shortage: Shortage },
    Short(Shortage),
    // The channel cannot carry a command's messages.
    BudgetShort { lacking: u32 },
    // Another seat, place or act is due, or none.
    WrongTurn,
    // The words or bytes lent are too few.
    PlaceTooShort,
    // A message of another length, or a word out of range.
    WrongMessage,
    // A message of no word, or of more than the channel's longest.
    BadLength,
    ChannelFull,
    BudgetSpent,
    NoneWaiting,
    // A deal sheet of a wrong length or filling.
    BadSheet,
}

impl From<Layer> for u8 {
    ghost from_gives = { λ layer n. n ≡ layer_number layer };

    fn from(layer: Layer) -> u8 {
        layer as u8
    }
}

impl Shortage {
    // What it says, in the order in which it is written; a refusal may say one value more.
    fn values(self) -> ArrayVec<u32, 4>
        ensures { result.items ≡ shortage_values self }
    {
        let mut values = ArrayVec::new();
        values.push(u32::from(u8::from(self.kind)));
        values.push(self.lacking);
        values.push(u32::from(u8::from(self.layer)));
        values
    }
}

impl Refusal {
    // The number of the refusal, as the rules list it.
    pub fn code(&self) -> u8
        ensures { result ≡ (code self.now).number }
    {
        match self {
            Refusal::SeatsWrong => 1,
            Refusal::BusyOrUnlike => 2,
            Refusal::ChannelUnfit => 3,
            Refusal::NoSuchRegister => 4,
            Refusal::BadWidth => 5,
            Refusal::EmptyOperand => 6,
            Refusal::WidthsDiffer => 7,
            Refusal::BadArgument => 8,
            Refusal::CorrelationsShort { .. } => 9,
            Refusal::Short(_) => 10,
            Refusal::BudgetShort { .. } => 11,
            Refusal::WrongTurn => 12,
            Refusal::PlaceTooShort => 13,
            Refusal::WrongMessage => 14,
            Refusal::BadLength => 15,
            Refusal::ChannelFull => 16,
            Refusal::BudgetSpent => 17,
            Refusal::NoneWaiting => 18,
            Refusal::BadSheet => 19,
        }
    }

    // What it carries, in the order in which it is written.
    pub fn values(&self) -> ArrayVec<u32, 4>
        ensures { result.items ≡ (code self.now).values }
    {
        match *self {
            Refusal::CorrelationsShort { party, shortage } => {
                let mut values = shortage.values();
                values.insert(0, u32::from(party));
                values
            }
            Refusal::Short(shortage) => shortage.values(),
            Refusal::BudgetShort { lacking } => {
                let mut values = ArrayVec::new();
                values.push(lacking);
                values
            }
            _ => ArrayVec::new(),
        }
    }
}

// A refusal's number and values say which refusal it is, so a contract that gives them pins it.
pub fn codes_tell_apart()
    ensures { CodesTellApart }
{}
