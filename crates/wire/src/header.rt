// What stands before the sealed text of a message.
use chain::PublicHalf;
use ratchet::types::Message;

// How many bytes a header has.
pub const HEADER_SIZE: usize = 47;

// What every message begins with.
pub const FIRST_BYTE: u8 = 82;

#[derive(Clone, Copy, Debug, PartialEq, Eq)]
pub struct Header {
    // which message it is, and how many its sender sent on its link before
    pub message: Message,
    // the public half of the sender's last key
    pub half: PublicHalf,
    // how many bytes the text has
    pub length: u16,
}
