// The ratchet: which message is which, which keys a side holds, what it refuses and in which order.
#![tactic(auto)]

pub mod laws;
mod placing;
pub mod sides;
pub mod slots;
pub mod steps;
pub mod types;
