// HMAC with SHA-256; what held the key or a pad is overwritten before a call returns.
ghost use Rattle.std.specs.Prelude.{◌≡◌, ℕ, ◌≤◌, List, [], ◌∷◌, ◌++◌, length};
ghost use Rattle.digest.specs.Hmac.{filled, hmac_sha_256, xored};
ghost use Rattle.digest.specs.Keyed.{Macs};
ghost use Rattle.digest.specs.Streaming.{Holds, fresh};

use crate::streaming::{Hasher, sha256};

// The byte of the inner pad, and that of the outer one.
const PADS: [u8; 2] = [0x36, 0x5c];

// The inner hash, of its pad and the message so far, and the outer one, of its pad.
// Each hash is said to be fresh in a clause of its own: a word for both would be one definition more to read.
#[derive(Clone, Copy)]
pub struct Mac {
    inner: Hasher,
    outer: Hasher,
}

impl Mac {
    // A state that holds no key. It is begun and finished where it lies, so that no copy of a pad stays behind.
    pub fn blank() -> Mac
        ensures inner { result.inner ≡ fresh }
        ensures outer { result.outer ≡ fresh }
    {
        Mac {
            inner: Hasher::new(),
            outer: Hasher::new(),
        }
    }

    // Begins both hashes with the pads of a key that fits a block.
    fn begin_short(&mut self, key: &[u8])
        requires { length key.now ≤ 64 }
        ensures inner { Holds self.new.inner (xored 0x36 (filled key.now)) }
        ensures outer { Holds self.new.outer (xored 0x5c (filled key.now)) }
    {
        self.inner.begin(key, PADS[0]);
        self.outer.begin(key, PADS[1]);
    }

    // Begins the HMAC of an empty message under a key of any length.
    pub fn begin(&mut self, key: &[u8])
        ensures { Macs self.new key.now [] }
    {
        if key.len() > 64 {
            let mut digest = sha256(key);
            self.begin_short(&digest);
            digest.fill(0);
        } else {
            self.begin_short(key);
        }
    }

    // Takes in the next part of the message.
    pub fn update(&mut self, part: &[u8])
        ensures { (k m : List ℕ) → Macs self.old k m → Macs self.new k (m ++ part.now) }
    {
        self.inner.update(part);
    }

    // The HMAC of the message so far and its last part; the state then holds nothing of the key any more.
    pub fn finish(&mut self, last: &[u8]) -> [u8; 32]
        ensures tag { (k m : List ℕ) → Macs self.old k m → result ≡ hmac_sha_256 k (m ++ last.now) }
        ensures inner { self.new.inner ≡ fresh }
        ensures outer { self.new.outer ≡ fresh }
    {
        self.inner.update(last);
        let digest = self.inner.finish();
        self.outer.update(&digest);
        self.outer.finish()
    }

    // Overwrites all that the state holds of the key.
    pub fn wipe(&mut self)
        ensures inner { self.new.inner ≡ fresh }
        ensures outer { self.new.outer ≡ fresh }
    {
        *self = Mac::blank();
    }
}

// The HMAC of a message under a key of any length.
pub fn hmac(key: &[u8], message: &[u8]) -> [u8; 32]
    ensures { result ≡ hmac_sha_256 key.now message.now }
{
    hmac_parts(key, &[], message)
}

// The HMAC of a message in two parts.
pub fn hmac_parts(key: &[u8], head: &[u8], body: &[u8]) -> [u8; 32]
    ensures { result ≡ hmac_sha_256 key.now (head.now ++ body.now) }
{
    let mut mac = Mac::blank();
    mac.begin(key);
    mac.update(head);
    mac.finish(body)
}

// The HMACs of the bytes 1 and 2 under one key, whose pads are compressed once for both.
pub fn hmac_pair(key: &[u8; 32]) -> ([u8; 32], [u8; 32])
    ensures { (result.0 ≡ hmac_sha_256 key.now (1 ∷ [])) × (result.1 ≡ hmac_sha_256 key.now (2 ∷ [])) }
{
    let mut first = Mac::blank();
    first.begin(key);
    let mut second = first;
    (first.finish(&[1]), second.finish(&[2]))
}
