// The fixed pieces of bytes that sealing takes and makes, each a type of its own.

// The key of one message: it seals one text, once.
#[derive(Drop)]
pub struct MessageKey(pub [u8; 32]);

// What tells two uses of the stream under one key apart.
#[derive(Drop)]
pub struct Nonce(pub [u8; 12]);

// The bytes behind a sealed text, which only who has the key can make.
#[derive(Drop)]
pub struct Tag(pub [u8; 16]);
