// A pen: the bytes that it writes into, and how far a sheet is written.
ghost use Rattle.std.specs.Prelude.{◌^◌, ◌<◌};

mod strokes;

// `at` whole bytes stand written, and `filled` bits of the next one are held in `current`.
#[derive(Drop)]
pub(crate) struct Pen<'a> {
    bytes: &'a mut [u8],
    at: usize,
    filled: u32,
    current: u32,
    ghost part: { filled < 8 },
    ghost low: { current < 2 ^ filled },
}
