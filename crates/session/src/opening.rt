// Opening the text of a message.
ghost use Rattle.std.specs.Prelude.{◌≡◌};
ghost use Rattle.exchange.specs.Held.{blank};
ghost use Rattle.session.specs.Takes.{OpensWith};

use crate::incoming::Incoming;
use seal::{MessageKey, open};
use wire::HEADER_SIZE;

// Opens the text of a message under a key: it stands at the front of the output, which is lent, as asked for; so the answer is its length.
pub(crate) fn open_text(
    key: &MessageKey,
    message: &Incoming,
    text: &mut [u8; 1000],
) -> Option<usize>
    ensures { OpensWith key.now.0 message.now text.new result }
{
    let (header, body) = message.bytes.split_at(HEADER_SIZE);
    open(key, header, body, text).ok()
}

// The same under a key that is used only here, and is blank afterwards.
pub(crate) fn open_once(
    key: &mut MessageKey,
    message: &Incoming,
    text: &mut [u8; 1000],
) -> Option<usize>
    ensures opens { OpensWith key.old.0 message.now text.new result }
    ensures blank { key.new.0 ≡ blank }
{
    let opened = open_text(key, message, text);
    *key = MessageKey([0; 32]);
    opened
}
