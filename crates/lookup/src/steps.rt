// The steps of a lookup: the receiver's word, the sender's words, and the two shares.
ghost use Rattle.std.specs.Prelude.{◌≡◌, ◌^◌, ◌<◌, map, length};
ghost use Rattle.std.specs.List.{range_with_len};
ghost use Rattle.lookup.specs.Lookup.{minus as back, entry_of, request as request_of, word as word_of, sender_share, receiver_share};
ghost use Rattle.lookup.specs.Halves.{sender_of, receiver_of};

use crate::group::Group;
use crate::half::words::at;
use crate::half::{ReceiverHalf, SenderHalf};

// a - b, counted round n places.
fn minus(n: usize, a: usize, b: usize) -> usize
    ensures is { result ≡ back n a b }
    ensures small { n < 2 ^ 32 → a < 2 ^ 32 → result < 2 ^ 32 }
{
    if b <= a {
        a - b
    } else {
        n.saturating_sub(b - a)
    }
}

// What the receiver sends, to look up an index in a table of so many entries.
pub fn request(entries: u32, half: ReceiverHalf, index: u32) -> u32
    ensures { result ≡ request_of entries (receiver_of half) index }
{
    minus(entries as usize, index as usize, half.choice as usize) as u32
}

// One word of the sender's answer: the entry, blinded and masked.
pub fn word<G: Group>(table: &[u32], half: SenderHalf<'_>, request: u32, k: usize) -> u32
    ensures { result ≡ word_of G.operation (length half.entry.masks.now) (entry_of table.now) (sender_of half.entry) request k }
{
    let mask = at(half.masks, minus(half.masks.len(), k, request as usize));
    G::join(G::join(at(table, k), half.blind), mask)
}

// The sender's answer to a request, in the words that are lent; entries past the table's end are 0.
pub fn answer<G: Group>(table: &[u32], half: SenderHalf<'_>, request: u32, words: &mut [u32])
    ensures { words.new ≡ map (word_of G.operation (length half.entry.masks.now) (entry_of table.now) (sender_of half.entry) request) (range_with_len 0 (length words.old)) }
{
    for (k, place) in words.iter_mut().enumerate() {
        *place = word::<G>(table, half, request, k);
    }
}

pub fn sender_share<G: Group>(half: SenderHalf<'_>) -> u32
    ensures { result ≡ sender_share G.operation (sender_of half.entry) }
{
    G::inverse(half.blind)
}

pub fn receiver_share<G: Group>(half: ReceiverHalf, index: u32, words: &[u32]) -> u32
    ensures { result ≡ receiver_share G.operation (receiver_of half) index words.now }
{
    G::join(at(words, index as usize), G::inverse(half.mask))
}
