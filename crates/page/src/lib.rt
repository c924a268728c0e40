// The page of a side: all that it holds, as bytes of a file.
#![tactic(auto)]

mod laws;
mod pages;
mod parts;
mod putting;
mod reading;
mod refusal;
mod slots;
mod sound;
mod writing;

pub use laws::{page_laws_hold, steps_keep_sides_valid};
pub use reading::read_page;
pub use refusal::BadPage;
pub use writing::{LONGEST_PAGE, write_page};
