// The "and" of two shared bits by one lookup, over any two sources.
ghost use Rattle.std.specs.Prelude.{◌≡◌, ◌/◌, ◌%◌, MatchResult};
ghost use Rattle.agree.specs.Conjunction.{table as table_of, index as index_of, Exchanged, Agreed, Kept};

use lookup::group::Xor;
use lookup::half::{ReceiverHalf, SenderHalf};
use lookup::steps::{answer, receiver_share, request, sender_share};
use refusal::kind::Kind;
use refusal::refusal::Refusal;
use sources::source::Source;

// One examiner's shares of the bits x and y.
#[derive(Clone, Copy, Debug, PartialEq, Eq)]
pub struct Shares {
    pub x: u32,
    pub y: u32,
}

impl Shares {
    // The last two bits of a number: bit 1 is the share of x, bit 0 that of y.
    pub fn from_last_bits(n: u32) -> Shares
        ensures { result ≡ record { x = n / 2 % 2; y = n % 2 } }
    {
        Shares {
            x: n / 2 % 2,
            y: n % 2,
        }
    }
}

// What passed in a lookup, and each seat's share of the result.
#[derive(Clone, Copy, Debug, PartialEq, Eq)]
pub struct Exchange {
    pub request: u32,
    pub words: [u32; 16],
    pub first: u32,
    pub second: u32,
}

// Seat 0's table: entry 2 * x + y is its share of the "and", should these be seat 1's shares.
fn table(a: Shares) -> [u32; 4]
    ensures { result ≡ table_of a }
{
    let x = a.x % 2;
    let y = a.y % 2;
    [x & y, x & (y ^ 1), (x ^ 1) & y, (x ^ 1) & (y ^ 1)]
}

// Seat 1's index.
fn index(b: Shares) -> u32
    ensures { result ≡ index_of b }
{
    2 * (b.x % 2) + b.y % 2
}

// One lookup over two halves: seat 0 has `a` and sends, seat 1 has `b`.
fn look_up(sent: &[u32], sought: &[u32], a: Shares, b: Shares) -> Exchange
    ensures { Exchanged sent.now sought.now a b result }
{
    let sender = SenderHalf::from(sent);
    let receiver = ReceiverHalf::from(sought);
    let asked = request(16, receiver, index(b));
    let mut words = [0; 16];
    answer::<Xor>(&table(a), sender, asked, &mut words);
    Exchange {
        request: asked,
        words,
        first: sender_share::<Xor>(sender) % 2,
        second: receiver_share::<Xor>(receiver, index(b), &words) % 2,
    }
}

// One lookup over the next halves of two sources; a source that has none refuses.
pub fn conjoin<S: Source, R: Source>(
    sender: &mut S,
    receiver: &mut R,
    a: Shares,
    b: Shares,
) -> Result<Exchange, Refusal>
    ensures { MatchResult result (Agreed (S.Source.owner sender.old) (R.Source.owner receiver.old) (S.Source.left sender.old) (S.Source.left sender.new) (R.Source.left receiver.old) (R.Source.left receiver.new) a b) (λ _. Kept (S.Source.left sender.old) (S.Source.left sender.new) (R.Source.left receiver.old) (R.Source.left receiver.new)) }
{
    sender.check(Kind::Bit, 1)?;
    let sought = receiver.take(Kind::Bit)?;
    let sent = sender.take(Kind::Bit)?;
    Ok(look_up(sent.as_slice(), sought.as_slice(), a, b))
}
