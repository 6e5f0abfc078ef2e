// Halves read from the words that a source draws.
ghost use Rattle.std.specs.Prelude.{◌≡◌, slice_index};
ghost use Rattle.lookup.specs.Halves.{sender_of, receiver_of, sender_from, receiver_from};

use crate::half::{ReceiverHalf, SenderHalf};

// The word at a place, or 0 past the end.
pub fn at(words: &[u32], i: usize) -> u32
    ensures { result ≡ slice_index words.now i }
{
    words.get(i).copied().unwrap_or(0)
}

// The masks, and then the blind.
impl<'a> From<&'a [u32]> for SenderHalf<'a> {
    ghost from_gives = { λ words half. sender_of half ≡ sender_from words.now };

    fn from(words: &'a [u32]) -> SenderHalf<'a> {
        let last = words.len().saturating_sub(1);
        SenderHalf {
            masks: &words[..last],
            blind: at(words, last),
        }
    }
}

// The choice, and then the mask.
impl From<&[u32]> for ReceiverHalf {
    ghost from_gives = { λ words half. receiver_of half ≡ receiver_from words.now };

    fn from(words: &[u32]) -> ReceiverHalf {
        ReceiverHalf {
            choice: at(words, 0),
            mask: at(words, 1),
        }
    }
}
