// Writing the sheet of any source into the caller's bytes.
ghost use Rattle.std.specs.Prelude.{◌≡◌, ◌+◌, ◌*◌, ◌<◌, ◌≤◌, [], length, drop, MatchResult, ◌≢◌, slice_index_or};
ghost use Rattle.refusal.specs.declared.kind.Kind.{Kind as KindOf};
ghost use Rattle.refusal.specs.Refusals.{code, plain};
ghost use Rattle.refusal.specs.Seats.{number};
ghost use Rattle.sheets.specs.Layout.{half_size, field_size, row_bits, list_bits};
ghost use Rattle.sheet_writer.specs.Pens.{place, capacity, Pushed};
ghost use Rattle.sheet_writer.specs.Writing.{bits_needed, header_bits, body_bits, Counted, TooMany, Drained, Wrote, Kept};

use crate::pen::Pen;
use refusal::kind::Kind;
use refusal::per_kind::PerKind;
use refusal::refusal::Refusal;
use refusal::seat::Seat;
use sheets::layout::{MOST_HALVES, half_size};
use sources::source::Source;

// How many halves of a kind a source has; more than a sheet can count are refused.
fn count<S: Source>(source: &S, kind: Kind) -> Result<u32, Refusal>
    ensures { MatchResult result (λ n. (n ≡ length (S.left source.now kind)) × (n < 8192)) (λ e. (8191 < length (S.left source.now kind)) × (code e ≡ plain 8)) }
{
    let one_too_many = MOST_HALVES + 1;
    let Err(Refusal::Short(shortage)) = source.check(kind, one_too_many) else {
        return Err(Refusal::BadArgument);
    };
    Ok(one_too_many - shortage.lacking)
}

// How many halves of each kind a source has.
fn counts<S: Source>(source: &S) -> Result<PerKind<u32>, Refusal>
    ensures { MatchResult result (Counted (S.left source.now)) (TooMany (S.left source.now)) }
{
    let bit = count(source, Kind::Bit)?;
    let ring0 = count(source, Kind::Ring0)?;
    let ring1 = count(source, Kind::Ring1)?;
    Ok(PerKind { bit, ring0, ring1 })
}

// How many bits a sheet with these counts has, its filling left out.
fn bits_needed(seat: Seat, counts: PerKind<u32>) -> usize
    ensures { result ≡ bits_needed (number seat) counts }
{
    let seat = u8::from(seat);
    let bit = counts.bit as usize * half_size(seat, Kind::Bit) as usize;
    let ring0 = counts.ring0 as usize * half_size(seat, Kind::Ring0) as usize;
    let ring1 = counts.ring1 as usize * half_size(seat, Kind::Ring1) as usize;
    40 + bit + ring0 + ring1
}

// Takes the first half of a kind, and writes it. Pen and source stay two parameters here and below: they are
// lent by two owners, and have nothing to say of one another. That the owner stays is a clause, as at `take`.
fn drain_one<S: Source>(pen: &mut Pen<'_>, source: &mut S, kind: Kind)
    requires some { 0 < length (S.left source.old kind) }
    requires room { place pen.old + half_size (S.owner source.old) kind ≤ capacity pen.old }
    ensures pushed { Pushed pen.old pen.new (row_bits (field_size (S.owner source.old) kind) 0 (slice_index_or (S.left source.old kind) 0 [])) }
    ensures moved { place pen.new ≡ place pen.old + half_size (S.owner source.old) kind }
    ensures rest { S.left source.new kind ≡ drop 1 (S.left source.old kind) }
    ensures others { (j : KindOf) → (j ≢ kind) → S.left source.new j ≡ S.left source.old j }
    ensures owner { S.owner source.new ≡ S.owner source.old }
{
    // Some half is left, so one is taken.
    let Ok(half) = source.take(kind) else {
        return;
    };
    pen.push_half(source.seat(), kind, half.as_slice());
}

// Takes all halves of a kind, and writes them.
fn drain<S: Source>(pen: &mut Pen<'_>, source: &mut S, kind: Kind, count: u32)
    requires all { count ≡ length (S.left source.old kind) }
    requires room { place pen.old + count * half_size (S.owner source.old) kind ≤ capacity pen.old }
    ensures pushed { Pushed pen.old pen.new (list_bits (field_size (S.owner source.old) kind) (S.left source.old kind)) }
    ensures moved { place pen.new ≡ place pen.old + count * half_size (S.owner source.old) kind }
    ensures drained { Drained kind (S.left source.old) (S.left source.new) }
    ensures owner { S.owner source.new ≡ S.owner source.old }
{
    for _ in 0..count {
        drain_one(pen, source, kind);
    }
}

// Writes the seat and the counts.
fn write_header(pen: &mut Pen<'_>, seat: Seat, counts: PerKind<u32>)
    requires { place pen.old + 40 ≤ capacity pen.old }
    ensures { Pushed pen.old pen.new (header_bits (number seat) counts) }
{
    pen.push(u32::from(u8::from(seat)), 1);
    pen.push(counts.bit, 13);
    pen.push(counts.ring0, 13);
    pen.push(counts.ring1, 13);
}

// Writes all halves, kind by kind.
fn write_halves<S: Source>(pen: &mut Pen<'_>, source: &mut S, counts: PerKind<u32>)
    requires counted { Counted (S.left source.old) counts }
    requires start { place pen.old ≡ 40 }
    requires room { bits_needed (S.owner source.old) counts ≤ capacity pen.old }
    ensures pushed { Pushed pen.old pen.new (body_bits (S.owner source.old) (S.left source.old)) }
    ensures moved { place pen.new ≡ bits_needed (S.owner source.old) counts }
    ensures empty { (k : KindOf) → S.left source.new k ≡ [] }
    ensures owner { S.owner source.new ≡ S.owner source.old }
{
    drain(pen, source, Kind::Bit, counts.bit);
    drain(pen, source, Kind::Ring0, counts.ring0);
    drain(pen, source, Kind::Ring1, counts.ring1);
}

// Writes the sheet of a source in front of the bytes, and answers how many bytes it has. The source
// is empty afterwards. More than 8,191 halves of a kind are refused, and then too few bytes.
pub fn write_sheet<S: Source>(source: &mut S, bytes: &mut [u8]) -> Result<usize, Refusal>
    ensures sheet { MatchResult result (Wrote (S.owner source.old) (S.left source.old) (S.left source.new) bytes.old bytes.new) (Kept (S.owner source.old) (S.left source.old) (S.left source.new) bytes.old bytes.new) }
    ensures owner { S.owner source.new ≡ S.owner source.old }
{
    let counts = counts(source)?;
    let seat = source.seat();
    if bytes.len() < bits_needed(seat, counts).div_ceil(8) {
        return Err(Refusal::PlaceTooShort);
    }
    let mut pen = Pen::new(bytes);
    write_header(&mut pen, seat, counts);
    write_halves(&mut pen, source, counts);
    Ok(pen.finish())
}
