// The sheets of a deal: written from sources, and examined pair by pair as they are read again.
ghost use Rattle.std.specs.Prelude.{◌≡◌, ◌+◌, ◌<◌, ◌≤◌, ◌↔◌, [], IsTrue, IfOk, IfErr, OnOk, OnErr, Some, MatchResult, length, slice_index};
ghost use Rattle.refusal.specs.declared.kind.Kind.{Kind as KindOf};
ghost use Rattle.refusal.specs.Kinds.{entries};
ghost use Rattle.refusal.specs.Seats.{number};
ghost use Rattle.sheets.specs.Layout.{decode};
ghost use Rattle.sheets.specs.Sheets.{sheet_owner, Opened};
ghost use Rattle.deal.specs.Examined.{lawful, whole, Examined, Unreadable};
ghost use Rattle.lookup.specs.Halves.{sender_from, receiver_from};
ghost use Rattle.lookup.specs.Lookup.{Fit};

use crate::per_seat::PerSeat;
use lookup::half::ReceiverHalf;
use lookup::half::words::at;
use refusal::kind::Kind;
use refusal::per_kind::PerKind;
use refusal::refusal::Refusal;
use refusal::seat::Seat;
use sheet_writer::writer::write_sheet;
use sheets::layout::MOST_HALVES;
use sheets::sheet::SheetSource;
use sources::source::Source;
use std::alloc::Global;
use std::fmt;

// No sheet has more bytes: seat 0's, with the most halves of each kind, of 34, 160 and 34 bits.
const LONGEST: usize = (40 + (34 + 160 + 34) * MOST_HALVES as usize + 7) / 8;

// What was drawn of a kind from both sheets.
#[derive(Clone, Copy, Debug, PartialEq, Eq)]
pub struct Tally {
    pub drawn: u32,
    pub fit: u32,
    // Whether a sheet has more halves than were to be drawn: a finding of its own, that guards no value.
    pub more: bool,
}

// What the two sheets of a deal hold.
#[derive(Clone, Copy, Debug, PartialEq, Eq)]
pub struct Findings {
    pub seats: PerSeat<Seat>,
    pub tallies: PerKind<Tally>,
}

impl fmt::Display for Tally {
    fn fmt<W: fmt::Write>(&self, f: &mut fmt::Formatter<W>) -> fmt::Result {
        let Tally { drawn, fit, .. } = *self;
        write!(f, "{drawn} pairs drawn, {fit} fit")
    }
}

impl Tally {
    // What a lawful deal of so many halves comes to: each sheet has so many, and all fit.
    fn lawful(count: u32) -> Tally
        ensures { result ≡ whole count }
    {
        Tally {
            drawn: count,
            fit: count,
            more: false,
        }
    }
}

impl Findings {
    // What the sheets of seats 0 and 1, and a lawful deal of so many halves, come to.
    fn lawful(counts: PerKind<u32>) -> Findings
        ensures { result ≡ lawful counts }
    {
        Findings {
            seats: PerSeat {
                first: Seat::Zero,
                second: Seat::One,
            },
            tallies: PerKind {
                bit: Tally::lawful(counts.bit),
                ring0: Tally::lawful(counts.ring0),
                ring1: Tally::lawful(counts.ring1),
            },
        }
    }

    pub fn is_lawful(&self, counts: PerKind<u32>) -> bool
        ensures { IsTrue result ↔ (self.now ≡ lawful counts) }
    {
        *self == Findings::lawful(counts)
    }
}

// The sheet of all that a source has left, which is then empty; an error leaves the source as it was.
pub fn sheet_of<S: Source>(heap: Global, source: &mut S) -> anyhow::Result<Vec<u8>>
    ensures sheet { IfOk result (λ v. decode v.items ≡ Some (record { seat = S.owner source.old; left = S.left source.old })) }
    ensures empty { OnOk result ((k : KindOf) → S.left source.new k ≡ []) }
    ensures stays { OnErr result (S.left source.new ≡ S.left source.old) }
{
    let mut bytes = vec![in heap; 0u8; LONGEST]?;
    let n = write_sheet(source, bytes.as_mut_slice())?;
    bytes.truncate(n);
    Ok(bytes)
}

// Whether the receiver's mask is the sender's at the receiver's choice. Both may be receivers' halves, where two
// sheets are of one seat: words past a half are 0 then.
fn fits(kind: Kind, sent: &[u32], sought: &[u32]) -> bool
    ensures reads { let r = receiver_from sought.now in IsTrue result ↔ ((r.choice < entries kind) × (r.mask ≡ slice_index sent.now r.choice)) }
    ensures fit { length sent.now ≡ entries kind + 1 → let s = sender_from sent.now in let r = receiver_from sought.now in IsTrue result ↔ ((r.choice < length s.masks) × Fit s r) }
{
    let ReceiverHalf { choice, mask } = ReceiverHalf::from(sought);
    choice < kind.entries() && at(sent, choice as usize) == mask
}

// The sheets of the two seats, open.
impl<'a> PerSeat<SheetSource<'a>> {
    fn open(first: &'a [u8], second: &'a [u8]) -> Result<PerSeat<SheetSource<'a>>, Refusal>
        ensures one { IfOk result (λ s. Opened first.now s.first) }
        ensures other { IfOk result (λ s. Opened second.now s.second) }
        ensures none { IfErr result (Unreadable first.now second.now) }
    {
        Ok(PerSeat {
            first: SheetSource::open(first)?,
            second: SheetSource::open(second)?,
        })
    }

    fn seats(&self) -> PerSeat<Seat>
        ensures first { number result.first ≡ sheet_owner self.now.first }
        ensures second { number result.second ≡ sheet_owner self.now.second }
    {
        PerSeat {
            first: self.first.seat(),
            second: self.second.seat(),
        }
    }

    // Whether the next halves of a kind fit; none where a list is at its end.
    fn draw(&mut self, kind: Kind) -> Option<bool> {
        let mine = self.first.take(kind).ok()?;
        let theirs = self.second.take(kind).ok()?;
        let (mine, theirs) = (mine.as_slice(), theirs.as_slice());
        if Seat::Zero.sends(kind) {
            Some(fits(kind, mine, theirs))
        } else {
            Some(fits(kind, theirs, mine))
        }
    }

    fn has_more(&self, kind: Kind) -> bool {
        self.first.check(kind, 1).is_ok() || self.second.check(kind, 1).is_ok()
    }

    // Draws so many pairs of a kind, or fewer where a list ends before. Two counts are kept, and each draw
    // changes the sheets, which a loop shows more plainly than a fold.
    fn tally(&mut self, kind: Kind, count: u32) -> Tally
        ensures fit { result.fit ≤ result.drawn }
        ensures drawn { result.drawn ≤ count }
    {
        let mut drawn = 0;
        let mut fit = 0;
        for _ in 0..count {
            if let Some(fits) = self.draw(kind) {
                drawn += 1;
                fit += u32::from(fits);
            }
        }
        Tally {
            drawn,
            fit,
            more: self.has_more(kind),
        }
    }
}

// Opens two sheets, and draws so many pairs of each kind.
pub fn examine(first: &[u8], second: &[u8], counts: PerKind<u32>) -> Result<Findings, Refusal>
    ensures { MatchResult result (Examined first.now second.now counts) (Unreadable first.now second.now) }
{
    let mut sheets = PerSeat::open(first, second)?;
    Ok(Findings {
        seats: sheets.seats(),
        tallies: PerKind {
            bit: sheets.tally(Kind::Bit, counts.bit),
            ring0: sheets.tally(Kind::Ring0, counts.ring0),
            ring1: sheets.tally(Kind::Ring1, counts.ring1),
        },
    })
}
