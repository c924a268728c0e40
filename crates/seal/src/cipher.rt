// The ChaCha20 stream over a text in place (RFC 8439, section 2.4).
ghost use Rattle.std.specs.Prelude.{◌≡◌, length, Decides};
ghost use Rattle.seal.specs.ChaCha20.{chacha20};
ghost use Rattle.seal.specs.Streaming.{Counts, StreamAnswer};

use crate::block::KeyStream;
use crate::keys::{MessageKey, Nonce};
use octets::{wipe, work_into_first};

// Says that the counter of a block of the text would pass 32 bits.
#[derive(Clone, Copy, PartialEq, Eq, Debug)]
pub struct TooLong;

// Whether the counter of each block of so many bytes fits its word.
pub(crate) fn counts(counter: u32, size: usize) -> bool
    ensures { Decides result (Counts counter size) }
{
    size.div_ceil(64) <= 0x1_0000_0000 - counter as usize
}

// The stream over a text whose counters fit. Key, nonce and counter are apart, as the standard's function takes them.
// The lemma on the empty text is named here, so that a wrong test for emptiness is refused at what `work_into_first` asks for.
#[tactic(auto, using(crate::proofs::Streams::stream_nothing))]
pub(crate) fn apply(key: &MessageKey, nonce: &Nonce, counter: u32, text: &mut [u8])
    requires { Counts counter (length text.old) }
    ensures { text.new ≡ chacha20 key.now.0 nonce.now.0 counter text.old }
{
    let size = text.len();
    if size == 0 {
        return;
    }
    let mut stream = KeyStream::new(key, nonce, counter);
    let mut words = [0; 16];
    // A count of blocks, since of what is written through chunks_mut a proof learns nothing.
    for i in 0..size.div_ceil(64) {
        let from = 64 * i;
        let to = size.min(from + 64);
        stream.apply(&mut words, &mut text[from..to]);
    }
    // The words' place is a known one, so that they can stay in registers.
    let left = wipe(&mut words, 0, 0) as u8;
    work_into_first(stream.wipe(size) | left, text);
}

// Each byte of the text exclusive or the stream's byte at its place. The same call once more undoes it.
pub fn stream(key: &MessageKey, nonce: &Nonce, counter: u32, text: &mut [u8]) -> Result<(), TooLong>
    ensures { StreamAnswer key.now.0 nonce.now.0 counter text.old text.new result }
{
    if !counts(counter, text.len()) {
        return Err(TooLong);
    }
    apply(key, nonce, counter, text);
    Ok(())
}
