// Keys along a chain: the one at a place, with the chain's value behind it, and those of places that are passed over.
ghost use Rattle.std.specs.Prelude.{◌≡◌, ◌+◌, ◌≤◌, List, ◌++◌, map, take, drop};
ghost use Rattle.chain.specs.Bytes.{chain_along, key_bytes, next_bytes};
ghost use Rattle.exchange.specs.Held.{blank};
ghost use Rattle.exchange.specs.Exchanges.{keys_along};
ghost use Rattle.session.specs.Ours.{AnyBox};
ghost use Rattle.session.specs.Views.{key_in};

use chain::{ChainKey, advance, skip, walk};
use seal::MessageKey;

// The key so many places on, and the value behind it; the chain's value there, which both come from, is blank afterwards.
pub(crate) fn key_at(at: &mut ChainKey, chain: &ChainKey, places: u32) -> (MessageKey, ChainKey)
    ensures key { result.0.0 ≡ key_bytes (chain_along places chain.now.0) }
    ensures next { result.1.0 ≡ next_bytes (chain_along places chain.now.0) }
    ensures blank { at.new.0 ≡ blank }
{
    *at = skip(chain, places);
    let pair = advance(at);
    *at = ChainKey([0; 32]);
    pair
}

// Puts the keys of so many places of a chain into the slots from `at` on.
pub(crate) fn put_along(slots: &mut [MessageKey; 512], at: usize, chain: &ChainKey, places: u32)
    requires { at + places ≤ 512 }
    ensures keys { AnyBox (λ o. map key_in (take (at + places) slots.new) ≡ map key_in (take at slots.old) ++ keys_along o places chain.now.0) }
    ensures rest { drop (at + places) slots.new ≡ drop (at + places) slots.old }
{
    let _ = walk(chain, &mut slots[at..at + places as usize]);
}
