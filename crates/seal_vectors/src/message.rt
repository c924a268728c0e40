// A message in one lent buffer, with its length as the answer: a header of 47 bytes, the covered text and its tag.
ghost use Rattle.std.specs.Prelude.{◌≡◌, ℕ, ◌+◌, ◌≤◌, List, ◌++◌, length, drop, Some, MatchOption};
ghost use Rattle.seal.specs.Sealing.{sealed};

use crate::sealed::hex;
use octets::count_up;
use seal::{MessageKey, open, seal};
use std::io;

// Writes the header and the sealed text to the front of the message; where there is no room, nothing.
pub fn write(key: &MessageKey, header: &[u8; 47], text: &[u8], message: &mut [u8]) -> Option<usize>
    ensures { MatchOption result (message.new ≡ message.old) (λ n. message.new ≡ header.now ++ (sealed key.now.0 header.now text.now ++ drop n message.old)) }
{
    if message.len() < 47 {
        return None;
    }
    let end = message.len();
    // by its pattern, which gives the proof the case of the answer: `.ok()?` does not
    let Ok(size) = seal(key, header, text, &mut message[47..end]) else {
        return None;
    };
    message[0..47].copy_from_slice(header);
    Some(47 + size)
}

// The text of a message, if it was written under this key.
pub fn read(key: &MessageKey, message: &[u8], out: &mut [u8]) -> Option<usize>
    ensures { (header text : List ℕ) → length header ≡ 47 → length text ≤ 1000 → length text ≤ length out.old → message.now ≡ header ++ sealed key.now.0 header text → (result ≡ Some (length text)) × (out.new ≡ text ++ drop (length text) out.old) }
{
    if message.len() < 47 {
        return None;
    }
    open(key, &message[0..47], &message[47..message.len()], out).ok()
}

pub fn run(rt: &HostRuntime) -> io::Result<()> {
    let key = MessageKey(count_up(1, 5));
    let header: [u8; 47] = count_up(82, 1);
    let text: [u8; 65] = count_up(97, 1);
    let mut message = [170; 160];
    let Some(end) = write(&key, &header, &text, &mut message) else {
        return println!(rt; "not written");
    };
    print!(rt; "message {end} ")?;
    hex(rt, &message)?;
    let mut out = [170; 80];
    if end > 160 {
        return println!(rt; "too long");
    }
    let Some(size) = read(&key, &message[0..end], &mut out) else {
        return println!(rt; "not read");
    };
    print!(rt; "its text {size} ")?;
    hex(rt, &out)
}
