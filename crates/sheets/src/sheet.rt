// A source that reads a deal sheet out of the caller's bytes.
ghost use Rattle.std.specs.Prelude.{◌≡◌, ◌+◌, ◌-◌, ◌*◌, ◌/◌, ◌^◌, ◌<◌, ◌≤◌, MatchResult};
ghost use Rattle.refusal.specs.declared.refusal.Layer.TheVariants.{Sheet as SheetLayer};
ghost use Rattle.refusal.specs.PerKinds.{at, with_at};
ghost use Rattle.refusal.specs.Seats.{number};
ghost use Rattle.sheets.specs.Bits.{bits_of};
ghost use Rattle.sheets.specs.Layout.{half_size, seat_of as seat_at, whole_at};
ghost use Rattle.sheets.specs.Ranges.{halves_in_range};
ghost use Rattle.sheets.specs.Sheets.{sheet_owner, sheet_have, sheet_left, Opened, NotASheet};

use crate::layout::{half_size, read, read_half};
use refusal::kind::Kind;
use refusal::per_kind::PerKind;
use refusal::refusal::{Layer, Refusal};
use refusal::seat::Seat;
use sources::source::{Half, Source, enough};

// Of each kind, the bit at which the next half begins, and the bit at which the last one ends. They stand
// apart: a source is three positions, which move, and the ends of their kinds, which do not.
#[derive(Drop)]
pub struct SheetSource<'a> {
    sheet: &'a [u8],
    seat: Seat,
    marks: PerKind<u32>,
    ends: PerKind<u32>,
}

// The seat whose sheet it is: the first bit.
fn seat_of(sheet: &[u8]) -> Seat
    ensures { number result ≡ seat_at (bits_of sheet.now) }
{
    if read(sheet, 0, 1) == 0 {
        Seat::Zero
    } else {
        Seat::One
    }
}

// How many bits a number of halves have.
fn span(seat: Seat, kind: Kind, count: u32) -> u32
    requires { count < 2 ^ 13 }
    ensures is { result ≡ count * half_size (number seat) kind }
    ensures few { result ≤ 1310720 }
{
    count * half_size(u8::from(seat), kind)
}

// Where a half that begins at the mark ends, if one fits before the end.
#[tactic(auto, using(crate::proofs::Moving::one_fits))]
fn after(mark: u32, end: u32, size: u32) -> u32
    requires { 0 < (end - mark) / size }
    ensures { result ≡ mark + size }
{
    mark + size
}

// Exactly as many bytes as that many bits ask for, and zero bits behind them.
fn is_whole(sheet: &[u8], end: u32) -> bool
    ensures { result ≡ whole_at sheet.now end }
{
    let bits = end as usize;
    if sheet.len() != bits.div_ceil(8) {
        return false;
    }
    read(sheet, bits, (8 * sheet.len() - bits) as u32) == 0
}

impl<'a> SheetSource<'a> {
    // The source of a sheet; bytes that are no sheet are refused.
    pub fn open(sheet: &'a [u8]) -> Result<SheetSource<'a>, Refusal>
        ensures { MatchResult result (Opened sheet.now) (NotASheet sheet.now) }
    {
        let seat = seat_of(sheet);
        let first = 40 + span(seat, Kind::Bit, read(sheet, 1, 13));
        let second = first + span(seat, Kind::Ring0, read(sheet, 14, 13));
        let third = second + span(seat, Kind::Ring1, read(sheet, 27, 13));
        if !is_whole(sheet, third) {
            return Err(Refusal::BadSheet);
        }
        let marks = PerKind {
            bit: 40,
            ring0: first,
            ring1: second,
        };
        let ends = PerKind {
            bit: first,
            ring0: second,
            ring1: third,
        };
        Ok(SheetSource {
            sheet,
            seat,
            marks,
            ends,
        })
    }

    // How many bits a half of a kind has.
    fn size(&self, kind: Kind) -> u32
        ensures is { result ≡ half_size (sheet_owner self.now) kind }
        ensures some { 0 < result }
        ensures most { result ≤ 160 }
    {
        half_size(u8::from(self.seat), kind)
    }

    // How many halves of a kind are left.
    fn have(&self, kind: Kind) -> u32
        ensures { result ≡ sheet_have self.now kind }
    {
        let left = self.ends.get(kind).saturating_sub(self.marks.get(kind));
        left / self.size(kind)
    }

    // The next half of a kind begins where this one ends.
    fn move_on(&mut self, kind: Kind)
        requires { 0 < sheet_have self.old kind }
        ensures { self.new ≡ record self.old { marks = with_at kind (at self.old.marks kind + half_size (sheet_owner self.old) kind) self.old.marks } }
    {
        let size = self.size(kind);
        let mark = after(self.marks.get(kind), self.ends.get(kind), size);
        self.marks.put(kind, mark);
    }
}

impl<'a> Source for SheetSource<'a> {
    ghost owner = { sheet_owner };

    ghost left = { sheet_left };

    ghost layer = { λ _ _. SheetLayer };

    ghost ranges = { λ s k. halves_in_range s.sheet.now (sheet_owner s) k (sheet_have s k) (at s.marks k) };

    fn seat(&self) -> Seat {
        self.seat
    }

    #[tactic(auto, using(crate::proofs::Moving::length_halves))]
    fn check(&self, kind: Kind, count: u32) -> Result<(), Refusal> {
        enough(kind, self.have(kind), count, Layer::Sheet)
    }

    fn take(&mut self, kind: Kind) -> Result<Half, Refusal> {
        self.check(kind, 1)?;
        let half = read_half(self.sheet, self.seat, kind, self.marks.get(kind));
        self.move_on(kind);
        Ok(half)
    }
}
