// Taking a message on the link taken on, at the next place or after.
ghost use Rattle.std.specs.Prelude.{◌≡◌, true, false};
ghost use Rattle.ratchet.specs.State.{state_of};
ghost use Rattle.ratchet.specs.Steps.{in_turn};
ghost use Rattle.exchange.specs.Exchanges.{take_in_turn};
ghost use Rattle.session.specs.Ours.{AnyBox};
ghost use Rattle.session.specs.Views.{held_of};
ghost use Rattle.session.specs.Takes.{parts_of, Stepped};

use crate::along::{key_at, put_along};
use crate::answers::Taken;
use crate::incoming::Incoming;
use crate::opening::open_once;
use crate::sessions::Session;
use chain::ChainKey;
use ratchet::sides::ROOM;
use ratchet::steps;
use ratchet::steps::LONGEST_SKIP;
use ratchet::types::Refusal;
use seal::MessageKey;

// The key along the chain; the keys of the places passed over are put aside once the text has opened.
pub(crate) fn take_in_turn(
    session: Session,
    slots: &mut [MessageKey; 512],
    message: &Incoming,
    text: &mut [u8; 1000],
) -> Taken
    requires { in_turn (state_of session.side) message.now.header.message ≡ true }
    ensures { AnyBox (λ o. Stepped (take_in_turn o (held_of session slots.old) (parts_of message.now)) false session slots.old slots.new text.new result) }
{
    let passed = message.header.message.mark.place - session.side.taken;
    let count = session.side.count;
    if passed > LONGEST_SKIP || count + passed as usize > ROOM {
        return Taken::Refused(session, Refusal::TooMany);
    }
    let (mut key, next) = key_at(&mut ChainKey([0; 32]), &session.taking, passed);
    let Some(size) = open_once(&mut key, message, text) else {
        return Taken::Refused(session, Refusal::NotOpened);
    };
    // a match: `?` doesn't serve `Taken`
    match steps::take(session.side, message.header.message, true) {
        steps::Taken::Refused(_, why) => Taken::Refused(session, why),
        steps::Taken::Opened(side) => {
            put_along(slots, count, &session.taking, passed);
            Taken::Opened(
                Session {
                    side,
                    taking: next,
                    ..session
                },
                size,
            )
        }
    }
}
