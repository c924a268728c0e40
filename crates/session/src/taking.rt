// Taking any bytes that come.
ghost use Rattle.std.specs.Prelude.{◌≡◌, replicate};
ghost use Rattle.exchange.specs.Exchanges.{take_message, take_bytes};
ghost use Rattle.session.specs.Takes.{parts_of};
ghost use Rattle.session.specs.Renews.{Answers, Leaves, Outputs, Fronts, Short};

use crate::answers::Taken;
use crate::in_turn::take_in_turn;
use crate::incoming::Incoming;
use crate::new_link::take_new;
use crate::recalled::take_recalled;
use crate::sessions::Session;
use keybox::KeyBox;
use octets::put;
use ratchet::types::Refusal;
use seal::MessageKey;
use wire::read;

// Takes a message that was read: in turn, by a key that was put aside, or on a new link.
// The switch of the bookkeeping once more, since the text is opened before its step; and the three have no frame in common,
// since each works out its key and puts keys aside in a way of its own.
fn take_read<B: KeyBox>(
    session: Session,
    slots: &mut [MessageKey; 512],
    own: &mut B,
    message: &Incoming,
    text: &mut [u8; 1000],
) -> Taken
    ensures leaves { Leaves B.KeyBox.keys session slots.old slots.new own.old own.new result }
    ensures answer { Answers B.KeyBox.keys B.KeyBox.scheme (λ o key fresh h. take_message o key fresh h (parts_of message.now)) session slots.old slots.new text.new own.old own.new result }
{
    if session.side.is_in_turn(message.header.message) {
        return take_in_turn(session, slots, message, text);
    }
    if let Some(i) = session.side.slot_of(message.header.message.mark) {
        return take_recalled(session, slots, i, message, text);
    }
    if message.header.message.mark.link == session.side.drawn {
        return take_new(session, slots, own, message, text);
    }
    Taken::Refused(session, Refusal::Unknown)
}

// Copies the text that was opened, if one was, to the front of an output.
fn hand_out(taken: &Taken, text: &[u8; 1000], out: &mut [u8; 1000])
    requires { Short taken.now }
    ensures text { Fronts text.now out.new taken.now }
    ensures rest { Outputs out.old out.new taken.now }
{
    if let Taken::Opened(_, size) = taken {
        put(out, 0, &text[0..*size]);
    }
}

// The same with the text handed out; where it was opened is blank afterwards.
fn take_into<B: KeyBox>(
    text: &mut [u8; 1000],
    session: Session,
    slots: &mut [MessageKey; 512],
    own: &mut B,
    message: &Incoming,
    out: &mut [u8; 1000],
) -> Taken
    ensures leaves { Leaves B.KeyBox.keys session slots.old slots.new own.old own.new result }
    ensures answer { Answers B.KeyBox.keys B.KeyBox.scheme (λ o key fresh h. take_message o key fresh h (parts_of message.now)) session slots.old slots.new out.new own.old own.new result }
    ensures output { Outputs out.old out.new result }
    ensures blank { text.new ≡ replicate 1000 0 }
{
    let taken = take_read(session, slots, own, message, text);
    hand_out(&taken, text, out);
    text.fill(0);
    taken
}

// Takes any bytes that come. Only if they are a message that opens is anything kept, and its text handed out.
pub fn take<B: KeyBox>(
    session: Session,
    slots: &mut [MessageKey; 512],
    own: &mut B,
    message: &[u8],
    out: &mut [u8; 1000],
) -> Taken
    ensures leaves { Leaves B.KeyBox.keys session slots.old slots.new own.old own.new result }
    ensures answer { Answers B.KeyBox.keys B.KeyBox.scheme (λ o key fresh h. take_bytes o key fresh h message.now) session slots.old slots.new out.new own.old own.new result }
    ensures output { Outputs out.old out.new result }
{
    // a match: `?` doesn't serve `Taken`
    let header = match read(message) {
        Ok(header) => header,
        Err(why) => return Taken::Refused(session, why),
    };
    let incoming = Incoming {
        header,
        bytes: message,
    };
    take_into(&mut [0; 1000], session, slots, own, &incoming, out)
}
