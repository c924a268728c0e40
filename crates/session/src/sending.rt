// Sending a text.
ghost use Rattle.session.specs.Sends.{Sending};

use crate::sessions::Session;
use crate::writing::write_message;
use chain::advance;
use ratchet::steps;
use ratchet::types::Refused;
use wire::Header;

// Seals a text: the message stands at the front of the output, which is lent, as asked for; so the answer has its length. The chain goes one place on, so that its key can't be worked out again.
pub fn send(
    session: Session,
    text: &[u8],
    out: &mut [u8; 1063],
) -> Result<(Session, usize), Refused<Session>>
    ensures { Sending session text.now out.old out.new result }
{
    // a match and no `map_err`: what refuses hands back the bookkeeping, and the whole session is due
    let (side, message) = match steps::send(session.side, text.len()) {
        Ok(sent) => sent,
        Err(Refused { why, .. }) => return Err(Refused { side: session, why }),
    };
    let header = Header {
        message,
        half: session.half,
        length: text.len() as u16,
    };
    let (mut key, next) = advance(&session.sending);
    let size = write_message(&mut key, &header, text, out);
    Ok((
        Session {
            side,
            sending: next,
            ..session
        },
        size,
    ))
}
