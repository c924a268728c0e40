// How scripts and output are written: escaped texts, numbers, words of a line.
#![tactic(auto)]

pub mod faults;
pub mod laws;
pub mod numbers;
pub mod text;
pub mod words;
