// What the program's arguments ask for, and what can be wrong with them.
ghost use Rattle.std.specs.Prelude.{◌≡◌, ◌<◌, IfOk, string_bytes};
ghost use Rattle.deal.specs.Order.{Few};

use crate::per_seat::PerSeat;
use refusal::kind::Kind;
use refusal::per_kind::PerKind;
use sheets::layout::MOST_HALVES;
use std::alloc::{AllocError, Global};
use std::rt::Env;
use std::{env, fmt};
use thiserror::Error;

// How the program is called.
const CALL: &str = "call it as deal START BIT RING0 RING1 [FILE0 FILE1]";

// The arguments that are numbers.
#[derive(Clone, Copy, Debug)]
pub enum Field {
    Start,
    Count(Kind),
}

// A field is shown by its name in a call of the program.
impl fmt::Display for Field {
    fn fmt<W: fmt::Write>(&self, f: &mut fmt::Formatter<W>) -> fmt::Result {
        f.write_str(match self {
            Field::Start => "START",
            Field::Count(Kind::Bit) => "BIT",
            Field::Count(Kind::Ring0) => "RING0",
            Field::Count(Kind::Ring1) => "RING1",
        })
    }
}

impl Field {
    // What a number is that is too large for the field.
    fn excess(self) -> &'static str {
        match self {
            Field::Start => "2^64 or more",
            Field::Count(_) => "over 8191",
        }
    }
}

// Why the arguments are no order.
#[derive(Clone, Copy, Debug, Error)]
pub enum BadCall {
    #[error("{CALL}: {0} is missing")]
    Missing(Field),
    #[error("{CALL}: {0} is no decimal number")]
    NotDecimal(Field),
    #[error("{CALL}: {0} is {excess}", excess = .0.excess())]
    TooLarge(Field),
    #[error("{CALL}: FILE1 is missing")]
    OneFile,
    #[error("{CALL}: FILE0 and FILE1 are the same")]
    SameFile,
    #[error("{CALL}: there are more arguments")]
    TooMany,
}

// A deal to make, and where its sheets go.
#[derive(Debug, Drop)]
pub struct Order {
    pub start: u64,
    pub counts: PerKind<u32>,
    pub files: PerSeat<String>,
}

impl fmt::Display for Order {
    fn fmt<W: fmt::Write>(&self, f: &mut fmt::Formatter<W>) -> fmt::Result {
        let start = self.start;
        let PerKind { bit, ring0, ring1 } = self.counts;
        write!(
            f,
            "deal from start {start}: bit {bit}, ring-0 {ring0}, ring-1 {ring1}"
        )
    }
}

// `parse` would take a sign too.
fn is_decimal(word: &str) -> bool {
    !word.is_empty() && word.bytes().all(|b| b.is_ascii_digit())
}

fn number(word: Option<String>, field: Field) -> Result<u64, BadCall> {
    let word = word.ok_or(BadCall::Missing(field))?;
    if !is_decimal(word.as_str()) {
        return Err(BadCall::NotDecimal(field));
    }
    word.as_str().parse().map_err(|_| BadCall::TooLarge(field))
}

fn count(word: Option<String>, kind: Kind) -> Result<u32, BadCall>
    ensures { IfOk result (λ n. n < 8192) }
{
    let field = Field::Count(kind);
    u32::try_from(number(word, field)?)
        .ok()
        .filter(|n| *n <= MOST_HALVES)
        .ok_or(BadCall::TooLarge(field))
}

fn counts(words: &mut env::Args) -> Result<PerKind<u32>, BadCall>
    ensures { IfOk result Few }
{
    Ok(PerKind {
        bit: count(words.next(), Kind::Bit)?,
        ring0: count(words.next(), Kind::Ring0)?,
        ring1: count(words.next(), Kind::Ring1)?,
    })
}

// The names where none are given.
fn default_files(heap: Global) -> Result<PerSeat<String>, AllocError>
    ensures { IfOk result (λ files. string_bytes files.first ≡ string_bytes files.second → ⊥) }
{
    Ok(PerSeat {
        first: String::from_str(heap, "deal-0.sheet")?,
        second: String::from_str(heap, "deal-1.sheet")?,
    })
}

// The names that are given, which differ, since one sheet would stand in the other's place.
fn given_files(first: String, second: Option<String>) -> Result<PerSeat<String>, BadCall>
    ensures { IfOk result (λ files. string_bytes files.first ≡ string_bytes files.second → ⊥) }
{
    let second = second.ok_or(BadCall::OneFile)?;
    if first == second {
        return Err(BadCall::SameFile);
    }
    Ok(PerSeat { first, second })
}

fn files(heap: Global, words: &mut env::Args) -> anyhow::Result<PerSeat<String>>
    ensures { IfOk result (λ files. string_bytes files.first ≡ string_bytes files.second → ⊥) }
{
    let Some(first) = words.next() else {
        return Ok(default_files(heap)?);
    };
    let pair = given_files(first, words.next())?;
    if words.next().is_some() {
        return Err(BadCall::TooMany.into());
    }
    Ok(pair)
}

impl Order {
    // The order that the program's arguments make: a deal that two sheets can hold, in two files.
    pub fn from_args(rt: &(impl Env + AllocGlobal)) -> anyhow::Result<Order>
        ensures few { IfOk result (λ order. Few order.counts) }
        ensures apart { IfOk result (λ order. string_bytes order.files.first ≡ string_bytes order.files.second → ⊥) }
    {
        let mut words = env::args(rt)?;
        let _ = words.next();
        Ok(Order {
            start: number(words.next(), Field::Start)?,
            counts: counts(&mut words)?,
            files: files(rt.alloc(), &mut words)?,
        })
    }
}
