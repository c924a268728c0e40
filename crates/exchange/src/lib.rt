// The exchange: two sides that seal and open messages, byte for byte, over every list of sends, of any bytes that come, of readings and stops.
#![tactic(auto)]

pub mod laws;
