// Sealing of texts: the ChaCha20 stream, and the tag that tells a message from a forgery.
#![tactic(auto)]

mod block;
mod cipher;
mod keys;
mod rounds;
mod sealing;
mod tagging;

pub use cipher::{TooLong, stream};
pub use keys::{MessageKey, Nonce};
pub use sealing::{OpenError, SealError, TAG_SIZE, open, seal};
