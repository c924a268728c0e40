// SHA-256, HMAC and HKDF, proved equal to their standards' definitions on lists of bytes.
#![tactic(auto)]

mod block;
mod buffer;
mod expand;
mod mac;
mod streaming;
mod words;

pub use expand::{TooLong, hkdf};
pub use mac::{hmac, hmac_pair, hmac_parts};
pub use streaming::{Hasher, sha256};
