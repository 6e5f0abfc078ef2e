// The running number of a dealer, and the halves that it gives. A running number stays a plain number, as the
// rules have it: a struct round it would be opened in each of these functions.
ghost use Rattle.std.specs.Prelude.{◌≡◌, ◌+◌, ◌<◌, ◌≤◌};
ghost use Rattle.refusal.specs.Kinds.{entries, choice_size};
ghost use Rattle.refusal.specs.Seats.{number};
ghost use Rattle.dealer.specs.Running.{step, run, top_bits, mask as dealt_mask, sender_half, receiver_half, half as half_of};

use refusal::kind::Kind;
use refusal::seat::Seat;
use sources::source::Half;

// The running number that follows.
fn next(x: u64) -> u64
    ensures { result ≡ step x }
{
    6364136223846793005u64
        .wrapping_mul(x)
        .wrapping_add(1442695040888963407)
}

// The running number `n` fields on.
#[tactic(auto, using(crate::proofs::Steps::run_more))]
fn ahead(x: u64, n: u32) -> u64
    ensures { result ≡ run n x }
{
    let mut y = x;
    for _i in 0..n {
        y = next(y);
    }
    y
}

// The field that a running number gives: its top bits.
#[tactic(auto, using(crate::proofs::Steps::top_fits))]
fn top(size: u32, x: u64) -> u32
    requires some { 0 < size }
    requires few { size ≤ 32 }
    ensures { result ≡ top_bits size x }
{
    (x >> (64 - size)) as u32
}

// The running number that follows a whole correlation: its masks, its blind and its choice.
fn after(kind: Kind, x: u64) -> u64
    ensures { result ≡ run (entries kind + 2) x }
{
    ahead(x, kind.entries() + 2)
}

// Mask `i` of the correlation that begins at x.
fn mask_at(kind: Kind, x: u64, i: u32) -> u32
    requires { i < 16 }
    ensures { result ≡ dealt_mask kind x i }
{
    top(kind.mask_size(), ahead(x, i + 1))
}

// The choice of the correlation that ends at x.
fn choice_at(kind: Kind, x: u64) -> u32
    ensures is { result ≡ top_bits (choice_size kind) x }
    ensures low { result < 16 }
{
    top(kind.choice_size(), x)
}

// How many words a sender's half has: the masks, and the blind.
fn masks_and_blind(kind: Kind) -> u32
    ensures is { result ≡ entries kind + 1 }
    ensures few { result ≤ 17 }
{
    kind.entries() + 1
}

// The masks, and then the blind, which stands where one mask more would. Here and below the number beside the half
// is the running number that follows the whole correlation: it falls out of the same steps.
fn sender_half(kind: Kind, x: u64) -> (Half, u64)
    ensures half { result.0.items ≡ sender_half kind x }
    ensures after { result.1 ≡ run (entries kind + 2) x }
{
    let mut half = Half::new();
    let mut y = x;
    for _ in 0..masks_and_blind(kind) {
        y = next(y);
        half.push(top(kind.mask_size(), y));
    }
    (half, next(y))
}

fn receiver_half(kind: Kind, x: u64) -> (Half, u64)
    ensures half { result.0.items ≡ receiver_half kind x }
    ensures after { result.1 ≡ run (entries kind + 2) x }
{
    let last = after(kind, x);
    let choice = choice_at(kind, last);
    let mut half = Half::new();
    half.push(choice);
    half.push(mask_at(kind, x, choice));
    (half, last)
}

// A seat's half of the correlation that begins at x.
pub(crate) fn half(seat: Seat, kind: Kind, x: u64) -> (Half, u64)
    ensures half { result.0.items ≡ half_of (number seat) kind x }
    ensures after { result.1 ≡ run (entries kind + 2) x }
{
    if seat.sends(kind) {
        sender_half(kind, x)
    } else {
        receiver_half(kind, x)
    }
}
