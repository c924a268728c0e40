// Work on bytes that more than one crate does: parts of lent memory, comparing, overwriting, counting up.
#![tactic(auto)]

mod comparing;
mod counting;
mod parts;
#[cfg(test)]
mod tests;
mod wiping;

pub use comparing::same;
pub use counting::count_up;
pub use parts::{part_at, put};
pub use wiping::{wipe, work_in, work_into_first};
