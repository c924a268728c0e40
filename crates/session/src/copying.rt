// Copies to work on: what they are made from stays as it was until a page is written.
ghost use Rattle.std.specs.Prelude.{◌≡◌};

use crate::sessions::Session;
use chain::{ChainKey, RootKey};
use seal::MessageKey;
use std::array;

// By a method of its own: `Clone` can fail, and `Copy` would let keys be copied unseen.
impl Session {
    // A copy of it.
    pub fn copy(&self) -> Session
        ensures { result ≡ self.now }
    {
        Session {
            side: self.side,
            root: RootKey(self.root.0),
            sending: ChainKey(self.sending.0),
            taking: ChainKey(self.taking.0),
            half: self.half,
        }
    }
}

// A copy of the slots that keys are put aside in; key by key, since keys have no Clone, for the same reason.
pub fn copy_keys(slots: &[MessageKey; 512]) -> [MessageKey; 512]
    ensures { result ≡ slots.now }
{
    array::from_fn(|i| MessageKey(slots[i].0))
}
