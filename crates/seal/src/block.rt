// One block of ChaCha20's key stream, worked into a text in place (RFC 8439, sections 2.3 and 2.4).
ghost use Rattle.std.specs.Prelude.{◌≡◌, ◌+◌, ◌≤◌, length, replicate, bit_xor};
ghost use Rattle.std.specs.Simd.Lanes.{zip2};
ghost use Rattle.seal.specs.ChaCha20.{plus, word, initial, serialized, block_of, counted};

use crate::keys::{MessageKey, Nonce};
use crate::rounds::twenty_rounds;
use octets::{part_at, put, wipe};

// "expand 32-byte k"
const EXPAND: [u32; 4] = [0x61707865, 0x3320646e, 0x79622d32, 0x6b206574];

// The word at a place of some bytes, its low byte first. Who reads words says in which order of bytes, so each crate has such a line.
// It has a `requires`, since the places are those of a key's or a nonce's words.
fn load(bytes: &[u8], at: usize) -> u32
    requires { at + 4 ≤ length bytes.now }
    ensures { result ≡ word bytes.now at }
{
    u32::from_le_bytes(part_at(bytes, at))
}

// Written out as the standard lays it out.
pub(crate) fn initial_state(key: &MessageKey, nonce: &Nonce, counter: u32) -> [u32; 16]
    ensures { result ≡ initial key.now.0 nonce.now.0 counter }
{
    let k = &key.0;
    let n = &nonce.0;
    [
        EXPAND[0],
        EXPAND[1],
        EXPAND[2],
        EXPAND[3],
        load(k, 0),
        load(k, 4),
        load(k, 8),
        load(k, 12),
        load(k, 16),
        load(k, 20),
        load(k, 24),
        load(k, 28),
        counter,
        load(n, 0),
        load(n, 4),
        load(n, 8),
    ]
}

// Adds each of the others to the word at its place: in place, where the digest's makes a new array.
fn add_words(words: &mut [u32; 16], others: &[u32; 16])
    ensures { words.new ≡ zip2 plus words.old others.now }
{
    // By number: of what is written through a zip of `iter_mut` the proof learns nothing.
    for (i, word) in words.iter_mut().enumerate() {
        *word = word.wrapping_add(others[i]);
    }
}

// The words as bytes, the low byte first. The digest's are written high byte first, and a parameter for the order would be no plainer.
// By number, since of what is written through chunks_mut a proof learns nothing.
fn serialize(words: &[u32; 16], bytes: &mut [u8; 64])
    ensures { bytes.new ≡ serialized words.now }
{
    for (i, word) in words.iter().enumerate() {
        put(bytes, 4 * i, &word.to_le_bytes());
    }
}

// Each byte exclusive or that of the pad at its place; by number, as the words above.
fn xor_bytes(text: &mut [u8], pad: &[u8; 64])
    requires { length text.old ≤ 64 }
    ensures { text.new ≡ zip2 bit_xor text.old pad.now }
{
    for (i, byte) in text.iter_mut().enumerate() {
        *byte ^= pad[i];
    }
}

// A place of the key stream: the state of its block, and the block's bytes once it is worked out.
#[derive(Drop)]
pub(crate) struct KeyStream {
    state: [u32; 16],
    pad: [u8; 64],
}

impl KeyStream {
    // The stream from the block of a counter on.
    pub(crate) fn new(key: &MessageKey, nonce: &Nonce, counter: u32) -> KeyStream
        ensures { result.state ≡ initial key.now.0 nonce.now.0 counter }
    {
        KeyStream {
            state: initial_state(key, nonce, counter),
            pad: [0; 64],
        }
    }

    // Works the block into at most 64 bytes of text, and goes on to the next.
    // The words that the rounds turn are lent: as a field of this they cost a tenth of the speed.
    pub(crate) fn apply(&mut self, words: &mut [u32; 16], text: &mut [u8])
        requires { length text.old ≤ 64 }
        ensures text { text.new ≡ zip2 bit_xor text.old (block_of self.old.state) }
        ensures state { self.new.state ≡ counted self.old.state }
    {
        *words = self.state;
        twenty_rounds(words);
        add_words(words, &self.state);
        serialize(words, &mut self.pad);
        xor_bytes(text, &self.pad);
        self.state[12] = self.state[12].wrapping_add(1);
    }

    // Overwrites all of it, and answers what was read back.
    pub(crate) fn wipe(&mut self, place: usize) -> u8
        ensures state { self.new.state ≡ replicate 16 0 }
        ensures pad { self.new.pad ≡ replicate 64 0 }
        ensures zero { result ≡ 0 }
    {
        let left = wipe(&mut self.state, 0, place);
        wipe(&mut self.pad, 0, place) | left as u8
    }
}
