// Writing a message: its header, and behind it the sealed text.
ghost use Rattle.std.specs.Prelude.{◌≡◌, ◌+◌, ◌≤◌, ◌++◌, length, take, drop};
ghost use Rattle.seal.specs.Sealing.{sealed};
ghost use Rattle.exchange.specs.Held.{blank};
ghost use Rattle.wire.specs.Layout.{header_bytes};

use octets::put;
use seal::{MessageKey, TAG_SIZE, seal};
use wire::{HEADER_SIZE, Header, write_header};

// Seals a text behind its header.
fn put_text(key: &MessageKey, header: &[u8; 47], text: &[u8], out: &mut [u8; 1063])
    requires { length text.now ≤ 1000 }
    ensures { out.new ≡ take 47 out.old ++ (sealed key.now.0 header.now text.now ++ drop (63 + length text.now) out.old) }
{
    // there is room, and the text is short
    let _ = seal(key, header, text, &mut out[HEADER_SIZE..]);
}

// Writes a whole message to the front of an output, which is lent, as asked for; so the answer is its length. Its key is blank afterwards.
pub(crate) fn write_message(
    key: &mut MessageKey,
    header: &Header,
    text: &[u8],
    out: &mut [u8; 1063],
) -> usize
    requires { length text.now ≤ 1000 }
    ensures bytes { take result out.new ≡ header_bytes header.now ++ sealed key.old.0 (header_bytes header.now) text.now }
    ensures rest { drop result out.new ≡ drop result out.old }
    ensures counted { result ≡ 63 + length text.now }
    ensures blank { key.new.0 ≡ blank }
{
    let bytes = write_header(header);
    put(out, 0, &bytes);
    put_text(key, &bytes, text, out);
    *key = MessageKey([0; 32]);
    HEADER_SIZE + TAG_SIZE + text.len()
}
