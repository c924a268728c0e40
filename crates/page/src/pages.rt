// The bytes of a page, which are tested before anything else is read from them.
ghost use Rattle.std.specs.Prelude.{◌≡◌, ◌+◌, ◌*◌, ◌≤◌, length, take, drop, Decides, MatchResult};
ghost use Rattle.digest.specs.Sha256.{sha_256};
ghost use Rattle.exchange.specs.Wire.{two_at};
ghost use Rattle.page.specs.Parts.{Whole};

use crate::putting::{DIGEST, ENTRY, FRONT, VERSION};
use crate::refusal::BadPage;
use digest::sha256;
use octets::{part_at, same};
use ratchet::sides::ROOM;

// All the bytes, and how many keys they say are put aside: each of these has its entry.
#[derive(Drop)]
pub(crate) struct Page<'a> {
    pub bytes: &'a [u8],
    pub count: usize,
    ghost few: { count ≤ 512 },
    ghost counted: { count ≡ two_at bytes.now 145 },
    ghost long: { length bytes.now ≡ 179 + 40 * count },
}

// Whether the bytes from a place on are the digest of those before it.
fn is_closed(bytes: &[u8], end: usize) -> bool
    requires { end + 32 ≡ length bytes.now }
    ensures { Decides result (drop end bytes.now ≡ sha_256 (take end bytes.now)) }
{
    same(&bytes[end..], &sha256(&bytes[..end]))
}

impl Page<'_> {
    // The version, the number of keys put aside, the length and the digest are right.
    pub(crate) fn open(bytes: &[u8]) -> Result<Page<'_>, BadPage>
        ensures { MatchResult result (λ p. (p.bytes.now ≡ bytes.now) × Whole bytes.now) (λ _. Whole bytes.now → ⊥) }
    {
        if bytes.len() < FRONT + DIGEST || bytes[0] != VERSION {
            return Err(BadPage);
        }
        let count = u16::from_be_bytes(part_at(bytes, 145)) as usize;
        if count > ROOM || bytes.len() != FRONT + ENTRY * count + DIGEST {
            return Err(BadPage);
        }
        if !is_closed(bytes, FRONT + ENTRY * count) {
            return Err(BadPage);
        }
        Ok(Page { bytes, count })
    }
}
