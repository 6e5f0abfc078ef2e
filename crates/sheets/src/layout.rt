// Sizes of fields and halves, and numbers read out of a sheet's bits.
ghost use Rattle.std.specs.Prelude.{◌≡◌, ◌+◌, ◌-◌, ◌*◌, ◌/◌, ◌%◌, ◌^◌, ◌<◌, ◌≤◌, slice_index};
ghost use Rattle.refusal.specs.Seats.{number};
ghost use Rattle.sources.specs.Halves.{width as width_of};
ghost use Rattle.sheets.specs.Bits.{bits_of, read as read_of};
ghost use Rattle.sheets.specs.Layout.{field_size, half_size, row_at};

use refusal::kind::Kind;
use refusal::seat::Seat;
use sources::source::{Half, width};

// A sheet counts the halves of a kind in 13 bits.
pub const MOST_HALVES: u32 = 8191;

// How many bits field `i` of a seat's half has. The seat is a number here and in `half_size`, and any, as at
// `width`.
pub fn field_size(seat: u8, kind: Kind, i: usize) -> u32
    ensures is { result ≡ field_size seat kind i }
    ensures most { result ≤ 32 }
{
    if !kind.is_sent_by(seat) && i == 0 {
        kind.choice_size()
    } else {
        kind.mask_size()
    }
}

// How many bits a seat's half has.
pub fn half_size(seat: u8, kind: Kind) -> u32
    ensures is { result ≡ half_size seat kind }
    ensures some { 0 < result }
    ensures most { result ≤ 160 }
{
    if kind.is_sent_by(seat) {
        (kind.entries() + 1) * kind.mask_size()
    } else {
        kind.choice_size() + kind.mask_size()
    }
}

// Bit `i` of a byte, the most significant first.
fn bit_of(byte: u8, i: usize) -> u8
    requires { i < 8 }
    ensures { result ≡ byte / 2 ^ (7 - i) % 2 }
{
    (byte >> (7 - i)) % 2
}

// The bit at a place, or 0 past the end.
#[tactic(auto, using(crate::specs::Places::bit_at, crate::specs::Places::bit_past))]
fn bit_at(sheet: &[u8], i: usize) -> u32
    ensures is { result ≡ slice_index (bits_of sheet.now) i }
    ensures low { result < 2 }
{
    match sheet.get(i / 8) {
        Some(byte) => u32::from(bit_of(*byte, i % 8)),
        None => 0,
    }
}

// The number that `n` bits from a place on stand for.
#[tactic(auto, using(crate::specs::Places::read_low))]
pub(crate) fn read(sheet: &[u8], p: usize, n: u32) -> u32
    requires few { n ≤ 32 }
    requires near { p < 2 ^ 33 }
    ensures is { result ≡ read_of (bits_of sheet.now) p n }
    ensures low { result < 2 ^ n }
{
    let mut v: u64 = 0;
    for i in 0..n {
        v = 2 * v + u64::from(bit_at(sheet, p + i as usize));
    }
    v as u32
}

// The half that begins at a place. `at` runs along, since fields differ in size.
pub(crate) fn read_half(sheet: &[u8], seat: Seat, kind: Kind, p: u32) -> Half
    ensures { result.items ≡ row_at (bits_of sheet.now) (field_size (number seat) kind) p 0 (width_of (number seat) kind) }
{
    let seat = u8::from(seat);
    let mut half = Half::new();
    let mut at = p as usize;
    for i in 0..width(seat, kind) {
        let size = field_size(seat, kind, i);
        half.push(read(sheet, at, size));
        at += size as usize;
    }
    half
}
