// What lies open after some sides were read: by the rule, and by working out all that can be.
#![tactic(auto)]

mod clauses;
mod readings;
pub mod rows;
mod rule;
mod working;
