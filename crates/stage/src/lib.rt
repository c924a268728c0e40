// A rehearsal's two sides, each with its file, its history and its planned stops, and the player that moves them.
#![tactic(auto)]

pub mod device;
pub mod devices;
pub mod player;
pub mod playing;
pub mod types;
