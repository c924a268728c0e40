// A session: one side of an exchange, with its keys. It seals texts and opens messages.
#![tactic(auto)]

mod along;
mod answers;
mod begun;
mod blank;
mod copying;
mod in_turn;
mod incoming;
mod laws;
mod new_link;
mod opening;
mod recalled;
mod sending;
mod sessions;
mod starting;
mod taking;
mod writing;

pub use answers::Taken;
pub use blank::no_keys;
pub use copying::copy_keys;
pub use laws::{our_exchanges_keep_the_laws, our_outside_keeps_its_laws};
pub use sending::send;
pub use sessions::Session;
pub use starting::{begin_first, begin_second};
pub use taking::take;
