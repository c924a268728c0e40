// Taking a message whose key was put aside.
ghost use Rattle.std.specs.Prelude.{◌≡◌, false, Some, position};
ghost use Rattle.ratchet.specs.Same.{same_mark};
ghost use Rattle.ratchet.specs.State.{state_of};
ghost use Rattle.ratchet.specs.Steps.{in_turn};
ghost use Rattle.exchange.specs.Exchanges.{take_recalled};
ghost use Rattle.session.specs.Ours.{AnyBox};
ghost use Rattle.session.specs.Views.{held_of};
ghost use Rattle.session.specs.Takes.{parts_of, Stepped};

use crate::answers::Taken;
use crate::incoming::Incoming;
use crate::opening::open_text;
use crate::sessions::Session;
use ratchet::slots::take_out;
use ratchet::steps;
use ratchet::types::Refusal;
use seal::MessageKey;

// The key from its slot; once the text has opened it is there no more.
pub(crate) fn take_recalled(
    session: Session,
    slots: &mut [MessageKey; 512],
    i: usize,
    message: &Incoming,
    text: &mut [u8; 1000],
) -> Taken
    requires turn { in_turn (state_of session.side) message.now.header.message ≡ false }
    requires found { position (λ x. same_mark x message.now.header.message.mark) (state_of session.side).skipped ≡ Some i }
    ensures { AnyBox (λ o. Stepped (take_recalled o (held_of session slots.old) (parts_of message.now)) false session slots.old slots.new text.new result) }
{
    let count = session.side.count;
    let Some(size) = open_text(&slots[i], message, text) else {
        return Taken::Refused(session, Refusal::NotOpened);
    };
    // a match: `?` doesn't serve `Taken`
    match steps::take(session.side, message.header.message, true) {
        steps::Taken::Refused(_, why) => Taken::Refused(session, why),
        steps::Taken::Opened(side) => {
            take_out(&mut slots[0..count], i, MessageKey([0; 32]));
            Taken::Opened(Session { side, ..session }, size)
        }
    }
}
