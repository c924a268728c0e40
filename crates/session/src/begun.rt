// A new link, as it is begun by the first of its messages that comes.
use chain::{ChainKey, RootKey};

#[derive(Drop)]
pub(crate) struct Begun {
    // the root after it
    pub root: RootKey,
    // its chain from its beginning, and behind the message
    pub chain: ChainKey,
    pub next: ChainKey,
    // how many bytes the text has, which stands in lent output, as asked for
    pub size: usize,
}
