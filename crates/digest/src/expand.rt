// HKDF with SHA-256; the keys that it works out are overwritten before it returns.
ghost use Rattle.std.specs.Prelude.{◌≡◌, ℕ, ◌+◌, ◌<◌, ◌≤◌, List, [], ◌∷◌, ◌++◌, length, MatchResult};
ghost use Rattle.digest.specs.Hkdf.{expanded, hkdf_sha_256, most};
ghost use Rattle.digest.specs.Hmac.{hmac_sha_256};
ghost use Rattle.digest.specs.Keyed.{Macs};

use crate::mac::{Mac, hmac};
use octets::{put, wipe, work_into_first};

const MOST: usize = 255 * 32;

// More was asked for than 255 blocks.
#[derive(Clone, Copy, PartialEq, Eq, Debug)]
pub struct TooLong;

// The next block of the expansion, from the one before it and its number.
fn next_block(start: &Mac, before: &[u8], info: &[u8], number: u8) -> [u8; 32]
    ensures { (k : List ℕ) → Macs start.now k [] → result ≡ hmac_sha_256 k (before.now ++ info.now ++ number ∷ []) }
{
    let mut mac = *start;
    mac.update(before);
    mac.update(info);
    mac.finish(&[number])
}

// Fills out with the expansion of a key.
fn expand_key(key: &[u8], info: &[u8], out: &mut [u8])
    requires { (length out.old ≤ most) × (0 < length out.old) }
    ensures { out.new ≡ expanded key.now info.now (length out.old) }
{
    let mut start = Mac::blank();
    start.begin(key);
    let mut block = [0u8; 32];
    let len = out.len();
    // A count of blocks, since of what is written through chunks_mut a proof learns nothing.
    for i in 0..len.div_ceil(32) {
        let before = (32 * i).min(32);
        // counted from 1
        let number = (i + 1) as u8;
        let next = next_block(&start, &block[0..before], info, number);
        block = next;
        let size = (len - 32 * i).min(32);
        put(out, 32 * i, &block[0..size]);
    }
    start.wipe();
    work_into_first(wipe(&mut block, 0, len), out);
}

// Fills out with the key material for a salt, an input and an info; more than 255 blocks are refused.
pub fn hkdf(salt: &[u8], input: &[u8], info: &[u8], out: &mut [u8]) -> Result<(), TooLong>
    ensures { MatchResult result
        (λ _. (length out.old ≤ most) × (out.new ≡ hkdf_sha_256 salt.now input.now info.now (length out.old)))
        (λ _. (most < length out.old) × (out.new ≡ out.old)) }
{
    if out.len() > MOST {
        return Err(TooLong);
    }
    if out.is_empty() {
        return Ok(());
    }
    let mut key = hmac(salt, input);
    expand_key(&key, info, out);
    work_into_first(wipe(&mut key, 0, out.len()), out);
    Ok(())
}
