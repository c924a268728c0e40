// Writing the header of a message.
ghost use Rattle.std.specs.Prelude.{◌≡◌, ℕ, ◌+◌, ◌≤◌, List, ◌++◌, length, Ok};
ghost use Rattle.wire.specs.Layout.{header_bytes, reading};

use crate::header::{FIRST_BYTE, HEADER_SIZE, Header};
use octets::put;
use ratchet::types::{Mark, Message};

// The bytes before the sealed text, of a fixed number, as asked for.
// By name and no From: these bytes are only the front of a message.
pub fn write_header(header: &Header) -> [u8; 47]
    ensures bytes { result ≡ header_bytes header.now }
    ensures back { (behind : List ℕ) → length behind ≡ header.now.length + 16 → header.now.length ≤ 1000 → reading (result ++ behind) ≡ Ok header.now }
{
    let Header {
        message: Message {
            mark: Mark { link, place },
            before,
        },
        half,
        length,
    } = header;
    let mut bytes = [0; HEADER_SIZE];
    put(&mut bytes, 0, &[FIRST_BYTE]);
    put(&mut bytes, 1, &link.to_be_bytes());
    put(&mut bytes, 5, &place.to_be_bytes());
    put(&mut bytes, 9, &before.to_be_bytes());
    put(&mut bytes, 13, &half.0);
    put(&mut bytes, 45, &length.to_be_bytes());
    bytes
}
