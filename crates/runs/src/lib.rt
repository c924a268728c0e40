// Runs: the two sides together, over every list of sends, deliveries, readings and stops, and what lies open after them.
#![tactic(auto)]

pub mod laws;
pub mod types;
