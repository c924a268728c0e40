// The words of a rehearsal: planned stops, and what its steps come to.
use ratchet::types::{Message, Refusal};

// On which side of a write a side of the rehearsal stops.
#[derive(Clone, Copy, Debug, PartialEq, Eq)]
pub enum When {
    Before,
    After,
}

// A planned stop, at the write of this number, counted from 1.
#[derive(Clone, Copy, Debug, PartialEq, Eq)]
pub struct Stop {
    pub write: u32,
    pub when: When,
}

// What a side's send comes to in a rehearsal; all four are what a rehearsal shows and plays on from, a refusal too.
#[derive(Clone, Copy, Debug, PartialEq, Eq)]
pub enum Sending {
    // it left
    Sent(Message),
    // the side stopped after its write: the message was sealed, and never left
    Lost(Message),
    // the side stopped before its write
    Stopped,
    Refused(Refusal),
}

// What taking a message comes to in a rehearsal; all four are what a rehearsal shows and plays on from, a refusal too.
#[derive(Clone, Copy, Debug, PartialEq, Eq)]
pub enum Taking {
    // the text was handed out
    Opened,
    // the side stopped after its write and before the text was handed out
    Lost,
    // the side stopped before its write
    Stopped,
    Refused(Refusal),
}

// Why a message isn't delivered.
#[derive(Clone, Copy, Debug, PartialEq, Eq)]
pub enum NoDelivery {
    NoSuchMessage,
    // the bit that was to be turned is not in the message
    NoSuchBit,
    NeverLeft,
}

// Why a stop can't be set.
#[derive(Clone, Copy, Debug, PartialEq, Eq)]
pub enum BadStop {
    // writes are counted from 1
    NoSuchWrite,
    // that write has been
    Past,
    // there is a stop for that write
    SetAlready,
}
