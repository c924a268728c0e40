// Taking the first message of a new link that comes.
ghost use Rattle.std.specs.Prelude.{◌≡◌, ℕ, ◌+◌, ◌≤◌, true, false, List, IfSome, Some, None, MatchOption};
ghost use Rattle.seal.specs.declared.keys.MessageKey.{MessageKey as Key};
ghost use Rattle.ratchet.specs.State.{state_of, has};
ghost use Rattle.ratchet.specs.Steps.{in_turn, is_new};
ghost use Rattle.exchange.specs.Exchanges.{text_new, take_new};
ghost use Rattle.session.specs.Ours.{ours, draw_of};
ghost use Rattle.session.specs.Views.{held_of};
ghost use Rattle.session.specs.Takes.{parts_of};
ghost use Rattle.session.specs.Renews.{Begins, Turning, Answers, Leaves};

use crate::along::{key_at, put_along};
use crate::answers::Taken;
use crate::begun::Begun;
use crate::incoming::Incoming;
use crate::opening::open_once;
use crate::sessions::Session;
use chain::{ChainKey, link};
use keybox::{KeyBox, renew};
use ratchet::sides::{ROOM, Side};
use ratchet::steps;
use ratchet::steps::LONGEST_SKIP;
use ratchet::types::Refusal;
use seal::MessageKey;
use wire::Header;

// Begins the link with the half that came, and opens the text with its key.
fn open_new<B: KeyBox>(
    session: &Session,
    own: &B,
    message: &Incoming,
    text: &mut [u8; 1000],
) -> Option<Begun>
    ensures short { IfSome result (λ b. b.size ≤ 1000) }
    ensures begins { (k : ℕ) → (B.KeyBox.keys own.now).last ≡ Some k → MatchOption result ((slots : List Key) → text_new (ours B.KeyBox.scheme) (draw_of k) (held_of session.now slots) (parts_of message.now) ≡ None) (λ b. Begins B.KeyBox.scheme k session.now message.now text.new b) }
{
    let joint = own.joint(&message.header.half)?;
    let (root, chain) = link(&session.root, &joint);
    let place = message.header.message.mark.place;
    let (mut key, next) = key_at(&mut ChainKey([0; 32]), &chain, place);
    let size = open_once(&mut key, message, text)?;
    Some(Begun {
        root,
        chain,
        next,
        size,
    })
}

// The side turns to the new link: it draws its next key, makes the link that it sends on, and puts aside what was passed over.
// Seven parameters: a struct of them would be made for this one call and taken apart in it.
fn turn<B: KeyBox>(
    session: Session,
    slots: &mut [MessageKey; 512],
    own: &mut B,
    header: &Header,
    begun: Begun,
    side: Side,
    left: u32,
) -> Taken
    requires { session.side.count + left + header.now.message.mark.place ≤ 512 }
    ensures { Turning B.KeyBox.keys B.KeyBox.scheme session side begun header.now left slots.old slots.new own.old own.new result }
{
    match renew(own, &header.half) {
        // which of the two it was is not told apart for a message
        Err(_) => Taken::NoKey(session),
        Ok((half, onward)) => {
            let (root, sending) = link(&begun.root, &onward);
            let count = session.side.count;
            let place = header.message.mark.place;
            put_along(slots, count, &session.taking, left);
            put_along(slots, count + left as usize, &begun.chain, place);
            own.keep();
            Taken::Opened(
                Session {
                    side,
                    root,
                    sending,
                    taking: begun.next,
                    half,
                },
                begun.size,
            )
        }
    }
}

// With the half that came the link is begun and the text opened; only then is a key drawn, and anything kept.
pub(crate) fn take_new<B: KeyBox>(
    session: Session,
    slots: &mut [MessageKey; 512],
    own: &mut B,
    message: &Incoming,
    text: &mut [u8; 1000],
) -> Taken
    requires turn { in_turn (state_of session.side) message.now.header.message ≡ false }
    requires aside { has message.now.header.message.mark (state_of session.side).skipped ≡ false }
    requires new { is_new (state_of session.side) message.now.header.message ≡ true }
    ensures leaves { Leaves B.KeyBox.keys session slots.old slots.new own.old own.new result }
    ensures answer { Answers B.KeyBox.keys B.KeyBox.scheme (λ o key fresh h. take_new o key fresh h (parts_of message.now)) session slots.old slots.new text.new own.old own.new result }
{
    let header = &message.header;
    let place = header.message.mark.place;
    let left = session.side.left_over(header.message);
    if left > LONGEST_SKIP
        || place > LONGEST_SKIP
        || session.side.count + left as usize + place as usize > ROOM
    {
        return Taken::Refused(session, Refusal::TooMany);
    }
    let Some(begun) = open_new(&session, own, message, text) else {
        return Taken::Refused(session, Refusal::NotOpened);
    };
    // a match: `?` doesn't serve `Taken`
    match steps::take(session.side, header.message, true) {
        steps::Taken::Refused(_, why) => Taken::Refused(session, why),
        steps::Taken::Opened(side) => turn(session, slots, own, header, begun, side, left),
    }
}
