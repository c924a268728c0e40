// What a side keeps.
use chain::{ChainKey, PublicHalf, RootKey};
use ratchet::sides::Side;

// The bookkeeping, and the keys that go with it. The keys put aside stand in 512 slots beside it, in step with the marks;
// they are lent at each call, as are the box and the output: this form is asked for, and no field.
#[derive(Drop)]
pub struct Session {
    pub side: Side,
    pub root: RootKey,
    // the chain of the link that it sends on, and of the link that it takes on; zeros where there is none
    pub sending: ChainKey,
    pub taking: ChainKey,
    // of its last key
    pub half: PublicHalf,
}
