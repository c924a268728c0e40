// Messages as bytes: a header, the sealed text, and its tag.
#![tactic(auto)]

mod header;
mod reading;
mod writing;

pub use header::{FIRST_BYTE, HEADER_SIZE, Header};
pub use reading::read;
pub use writing::write_header;
