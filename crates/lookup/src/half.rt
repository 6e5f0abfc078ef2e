// What a party holds of a correlation: the sender's half and the receiver's half.
pub mod words;

// The masks of a table's entries, and the blind whose inverse is the sender's share.
#[derive(Clone, Copy, Debug, PartialEq, Eq, Hash)]
pub struct SenderHalf<'a> {
    pub masks: &'a [u32],
    pub blind: u32,
}

// A random place, and the mask that the sender has there.
#[derive(Clone, Copy, Debug, PartialEq, Eq, Hash)]
pub struct ReceiverHalf {
    pub choice: u32,
    pub mask: u32,
}
