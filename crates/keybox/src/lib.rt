// The key box: it holds the secret halves of a side's keys and lets none of them out; and a box of numbers, for rehearsals and tests.
#![tactic(auto)]

mod boxes;
mod errors;
mod numbers;
mod renewal;

pub use boxes::KeyBox;
pub use errors::KeyError;
pub use numbers::{NumberBox, numbers_agree};
pub use renewal::renew;
