// Reading the header of a message.
ghost use Rattle.std.specs.Prelude.{◌≡◌, ◌+◌, ◌≤◌, length, Decides};
ghost use Rattle.wire.specs.Layout.{header_of, reading};
ghost use Rattle.wire.specs.Laws.{Reads};

use crate::header::{FIRST_BYTE, HEADER_SIZE, Header};
use chain::PublicHalf;
use octets::part_at;
use ratchet::steps::LONGEST_TEXT;
use ratchet::types::{Mark, Message, Refusal};
use seal::TAG_SIZE;

// What stands in the first bytes, read as a header.
fn header_of(bytes: &[u8]) -> Header
    requires { 47 ≤ length bytes.now }
    ensures { result ≡ header_of bytes.now }
{
    Header {
        message: Message {
            mark: Mark {
                link: u32::from_be_bytes(part_at(bytes, 1)),
                place: u32::from_be_bytes(part_at(bytes, 5)),
            },
            before: u32::from_be_bytes(part_at(bytes, 9)),
        },
        half: PublicHalf(part_at(bytes, 13)),
        length: u16::from_be_bytes(part_at(bytes, 45)),
    }
}

// Whether a message of so many bytes has room for a text of this length and its tag, and for nothing else.
fn is_whole(size: usize, text: usize) -> bool
    ensures { Decides result ((text ≤ 1000) × (size ≡ 47 + text + 16)) }
{
    text <= LONGEST_TEXT && size == HEADER_SIZE + text + TAG_SIZE
}

// Reads the header of a message; refuses another first byte, a text that is too long, and a length that is not that of the message.
// A function and no TryFrom: a header is only a part of what these bytes are.
pub fn read(message: &[u8]) -> Result<Header, Refusal>
    ensures answer { result ≡ reading message.now }
    ensures laws { Reads message.now result }
{
    if message.len() < HEADER_SIZE + TAG_SIZE || message[0] != FIRST_BYTE {
        return Err(Refusal::Malformed);
    }
    let header = header_of(message);
    if !is_whole(message.len(), header.length as usize) {
        return Err(Refusal::Malformed);
    }
    Ok(header)
}
