// What taking a message comes to: this form is asked for, and not a Result. So a step that refuses is handed on by a match, and no `?`.
use crate::sessions::Session;
use ratchet::types::Refusal;

#[derive(Drop)]
pub enum Taken {
    // the session after it, and how many bytes of the output, which is lent, as asked for, the text has
    Opened(Session, usize),
    // the session as it was
    Refused(Session, Refusal),
    // the message opens, but the box has no further key that goes with the half that came; the session as it was
    NoKey(Session),
}
