// Scripts: their lines, what playing one does, and what it prints.
#![tactic(auto)]

pub mod commands;
pub mod output;
pub mod play;
pub mod rehearsal;
pub mod view;
