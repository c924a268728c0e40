// The keys of a link: its root and chain, and along the chain the keys of its messages.
ghost use Rattle.std.specs.Prelude.{length};
ghost use Rattle.chain.specs.Answers.{Linked, Advanced, Skipped, Walked};

use crate::keys::{ChainKey, JointSecret, RootKey};
use digest::{hkdf, hmac, hmac_pair};
use octets::{part_at, wipe, work_into_first};
use seal::MessageKey;

// What a chain's value is digested with for its value at the next place.
const NEXT: [u8; 1] = [2];

// Begins a link: from root n and the joint secret of keys n and n + 1, root n + 1 and the beginning of link n's chain.
pub fn link(root: &RootKey, joint: &JointSecret) -> (RootKey, ChainKey)
    ensures { Linked root.now.0 joint.now.0 result.0.0 result.1.0 }
{
    let mut both = [0; 64];
    // 64 bytes are never too many
    let _ = hkdf(&root.0, &joint.0, &[], &mut both);
    let mut first: [u8; 32] = part_at(&both, 0);
    let last: [u8; 32] = part_at(&both, 32);
    work_into_first(wipe(&mut both, 0, last[0] as usize), &mut first);
    (RootKey(first), ChainKey(last))
}

// The key of the message at this place of a chain, and the chain's value at the next.
pub fn advance(chain: &ChainKey) -> (MessageKey, ChainKey)
    ensures { Advanced chain.now.0 result.0.0 result.1.0 }
{
    let (key, next) = hmac_pair(&chain.0);
    (MessageKey(key), ChainKey(next))
}

// A chain's value so many places on.
pub fn skip(chain: &ChainKey, places: u32) -> ChainKey
    ensures { Skipped chain.now.0 places result.0 }
{
    // By hand, here and in `walk`: a key has no `Clone`, so that it isn't copied unseen.
    let mut at = ChainKey(chain.0);
    // A count: each value comes from the one before it.
    for _place in 0..places {
        let next = hmac(&at.0, &NEXT);
        at.0 = next;
    }
    at
}

// Fills a lent slice with the keys of the places from here on, in order, and gives the chain's value behind them.
pub fn walk(chain: &ChainKey, keys: &mut [MessageKey]) -> ChainKey
    ensures { Walked chain.now.0 (length keys.old) keys.new result.0 }
{
    let mut at = ChainKey(chain.0);
    for slot in keys.iter_mut() {
        let (key, next) = advance(&at);
        *slot = key;
        at = next;
    }
    at
}
