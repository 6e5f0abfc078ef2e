// Writing bits, numbers and halves with a pen.
ghost use Rattle.std.specs.Prelude.{◌≡◌, ◌+◌, ◌^◌, ◌<◌, ◌≤◌, length};
ghost use Rattle.refusal.specs.Seats.{number};
ghost use Rattle.sheets.specs.Bits.{bits};
ghost use Rattle.sheets.specs.Layout.{field_size, row_bits};
ghost use Rattle.sheet_writer.specs.Pens.{place, capacity, Fresh, Pushed, Finished};

use crate::pen::Pen;
use refusal::kind::Kind;
use refusal::seat::Seat;
use sheets::layout::field_size;

impl<'a> Pen<'a> {
    // A pen at the start of a sheet.
    pub(crate) fn new(bytes: &'a mut [u8]) -> Pen<'a>
        ensures fresh { Fresh result bytes.old }
        ensures same_reference { result.bytes.ghost_name ≡ bytes.entry.ghost_name }
    {
        Pen {
            bytes,
            at: 0,
            filled: 0,
            current: 0,
        }
    }

    // Writes a number of few bits, for which the byte that is held has room.
    #[tactic(auto, using(crate::proofs::Strokes::low_join))]
    fn push_part(&mut self, part: u32, size: u32)
        requires low { part < 2 ^ size }
        requires fits { self.old.filled + size ≤ 8 }
        requires room { place self.old + size ≤ capacity self.old }
        ensures { Pushed self.old self.new (bits size part) }
    {
        let current = (self.current << size) + part;
        if self.filled + size == 8 {
            self.bytes[self.at] = current as u8;
            self.at += 1;
            self.current = 0;
            self.filled = 0;
        } else {
            self.filled += size;
            self.current = current;
        }
    }

    // Writes a number in so many bits, the most significant first, as many at a time as the byte that is held
    // has room for: bit by bit the pen would go to memory and back for each.
    pub(crate) fn push(&mut self, value: u32, n: u32)
        requires few { n ≤ 32 }
        requires room { place self.old + n ≤ capacity self.old }
        ensures { Pushed self.old self.new (bits n value) }
    {
        let mut left = n;
        while 0 < left {
            let size = left.min(8 - self.filled);
            left -= size;
            self.push_part((value >> left) % (1 << size), size);
        }
    }

    // Writes a seat's half of a kind, field by field.
    pub(crate) fn push_half(&mut self, seat: Seat, kind: Kind, half: &[u32])
        requires { place self.old + length (row_bits (field_size (number seat) kind) 0 half.now) ≤ capacity self.old }
        ensures { Pushed self.old self.new (row_bits (field_size (number seat) kind) 0 half.now) }
    {
        for (i, value) in half.iter().enumerate() {
            self.push(*value, field_size(u8::from(seat), kind, i));
        }
    }

    // Fills the last byte with zero bits, and answers how many bytes the sheet has.
    pub(crate) fn finish(&mut self) -> usize
        requires { place self.old ≤ capacity self.old }
        ensures { Finished self.old self.new result }
    {
        self.push(0, (8 - self.filled) % 8);
        self.at
    }
}
