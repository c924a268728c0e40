// The secrets of a side, and the public half of a key, each a type of its own.

// What link n is made from, with the joint secret of keys n and n + 1.
#[derive(Drop)]
pub struct RootKey(pub [u8; 32]);

// A chain's value at one place of its link.
#[derive(Drop)]
pub struct ChainKey(pub [u8; 32]);

// What two keys give together: the secret half of either with the public half of the other.
#[derive(Drop)]
pub struct JointSecret(pub [u8; 32]);

// The half of a key that everybody may know.
#[derive(Clone, Copy, Debug, PartialEq, Eq)]
pub struct PublicHalf(pub [u8; 32]);
