// A rehearsal under way: the two sides, what was read of them, and every message sent with its text.
use crate::device::Device;
use ratchet::sides::Side;
use ratchet::types::Message;
use runs::types::Who;

// A message that was sealed, with its text.
#[derive(Drop)]
pub struct Letter {
    pub from: Who,
    pub message: Message,
    pub text: Vec<u8>,
}

#[derive(Drop)]
pub struct Player {
    pub first: Device,
    pub second: Device,
    // the sides as they were when they were read out
    pub readings: Vec<Side>,
    // the messages in the order in which they were sealed: message M is the M-th
    pub letters: Vec<Letter>,
}
