// Root, chain and message keys of links: how each comes from those before it.
#![tactic(auto)]

mod keys;
mod links;

pub use keys::{ChainKey, JointSecret, PublicHalf, RootKey};
pub use links::{advance, link, skip, walk};
