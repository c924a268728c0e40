// The steps of a side: it is passed by value and handed back, after the step or as it was.
ghost use Rattle.std.specs.Prelude.{◌≡◌, ◌+◌, ◌-◌, ◌<◌, ◌≤◌, true, ◌++◌, length, take as firsts, Err};
ghost use Rattle.std.proofs.Math.Seq.{paste};
ghost use Rattle.std.specs.List.{remove};
ghost use Rattle.ratchet.specs.State.{state_of, begun, has, without, places};
ghost use Rattle.ratchet.specs.Steps.{send as sending, in_turn, is_new, left as rests, passed, short, room_for, take_in_turn, take_recalled, take_new, take as taking};
ghost use Rattle.ratchet.specs.Answers.{sent_answer, taken_answer, SentBy, TakenBy};

use crate::sides::{BLANK, ROOM, Side};
use crate::slots;
use crate::types::{Mark, Message, Refusal, Refused};

// The longest text, in bytes.
pub const LONGEST_TEXT: usize = 1000;

// The most places of one link that a message may pass over.
pub const LONGEST_SKIP: u32 = 256;

// What taking a message comes to. An enum of its own and no Result: that form is asked for.
#[derive(Clone, Copy)]
pub enum Taken {
    // the side after it
    Opened(Side),
    // the side as it was
    Refused(Side, Refusal),
}

// The side that has drawn the key of this number, and has sent and taken nothing.
fn fresh(drawn: u32) -> Side
    ensures { state_of result ≡ begun drawn }
{
    Side {
        drawn,
        sent: 0,
        taken: 0,
        before: 0,
        count: 0,
        marks: [BLANK; 512],
    }
}

// The first side as it begins: it has drawn key 1.
pub fn first_side() -> Side
    ensures { state_of result ≡ begun 1 }
{
    fresh(1)
}

// The second side as it begins: it has drawn key 0. A name for each, since which number is whose is a rule.
pub fn second_side() -> Side
    ensures { state_of result ≡ begun 0 }
{
    fresh(0)
}

// The side as it was, with why nothing was sent.
fn refused(side: Side, why: Refusal) -> Result<(Side, Message), Refused<Side>>
    ensures { result ≡ Err (record { side = side; why = why }) }
{
    Err(Refused { side, why })
}

// Sends a text of so many bytes: the side after it, and the message.
pub fn send(side: Side, text_length: usize) -> Result<(Side, Message), Refused<Side>>
    ensures answer { sent_answer result ≡ sending text_length (state_of side) }
    ensures values { SentBy side result }
{
    if text_length > LONGEST_TEXT {
        return refused(side, Refusal::Malformed);
    }
    if side.drawn == 0 {
        return refused(side, Refusal::NoLink);
    }
    if side.sent == u32::MAX {
        return refused(side, Refusal::Exhausted);
    }
    let mark = Mark {
        link: side.drawn - 1,
        place: side.sent,
    };
    let before = side.before;
    let mut next = side;
    next.sent = side.sent + 1;
    Ok((next, Message { mark, before }))
}

// Takes a message on the link taken on, at the next place or after: the places passed over are put aside.
fn take_in_turn(side: Side, message: Message, opens: bool) -> Taken
    requires { in_turn (state_of side) message ≡ true }
    ensures answer { taken_answer result ≡ take_in_turn opens (state_of side) message }
    ensures values { TakenBy side result }
{
    let place = message.mark.place;
    let passed = place - side.taken;
    if passed > LONGEST_SKIP || side.count + passed as usize > ROOM {
        return Taken::Refused(side, Refusal::TooMany);
    }
    if !opens {
        return Taken::Refused(side, Refusal::NotOpened);
    }
    if place == u32::MAX {
        return Taken::Refused(side, Refusal::Exhausted);
    }
    let mut next = side;
    slots::put(
        &mut next.marks,
        side.count,
        message.mark.link,
        side.taken,
        place,
    );
    next.count = side.count + passed as usize;
    next.taken = place + 1;
    Taken::Opened(next)
}

// Takes a message whose key was put aside, in slot `i`.
fn take_recalled(side: Side, message: Message, i: usize, opens: bool) -> Taken
    requires within { i < side.count }
    requires found { without message.mark (firsts side.count side.marks) ≡ remove (firsts side.count side.marks) i }
    ensures answer { taken_answer result ≡ take_recalled opens (state_of side) message }
    ensures values { TakenBy side result }
{
    if !opens {
        return Taken::Refused(side, Refusal::NotOpened);
    }
    let mut next = side;
    slots::take_out(&mut next.marks[0..side.count], i, BLANK);
    next.count = side.count - 1;
    Taken::Opened(next)
}

// The slots with what is left of the old link and what the new one passes over behind the marks of the side.
fn with_new_link(side: Side, message: Message, left: u32) -> [Mark; 512]
    requires within { side.count + left + message.mark.place ≤ 512 }
    requires counted { left ≡ rests (state_of side) message }
    ensures { result ≡ paste side.marks side.count (places (side.drawn - 2) side.taken left ++ places message.mark.link 0 message.mark.place) (left + message.mark.place) }
{
    let mut marks = side.marks;
    let count = side.count;
    let link = message.mark.link;
    if left > 0 {
        slots::put(
            &mut marks,
            count,
            side.drawn - 2,
            side.taken,
            message.before,
        );
    }
    slots::put(
        &mut marks,
        count + left as usize,
        link,
        0,
        message.mark.place,
    );
    marks
}

// Takes the first message of a new link that comes: the side draws its next key at once.
fn take_new(side: Side, message: Message, opens: bool) -> Taken
    requires { is_new (state_of side) message ≡ true }
    ensures answer { taken_answer result ≡ take_new opens (state_of side) message }
    ensures values { TakenBy side result }
{
    let place = message.mark.place;
    let left = side.left_over(message);
    if left > LONGEST_SKIP
        || place > LONGEST_SKIP
        || side.count + left as usize + place as usize > ROOM
    {
        return Taken::Refused(side, Refusal::TooMany);
    }
    if !opens {
        return Taken::Refused(side, Refusal::NotOpened);
    }
    if side.drawn > u32::MAX - 2 {
        return Taken::Refused(side, Refusal::Exhausted);
    }
    let marks = with_new_link(side, message, left);
    let count = side.count + left as usize + place as usize;
    Taken::Opened(Side {
        drawn: side.drawn + 2,
        sent: 0,
        taken: place + 1,
        before: side.sent,
        count,
        marks,
    })
}

// Takes a message, by where it has its place, in the order of the rules: in turn, put aside, on a new link.
// `opens` says whether its text opens with its key: what a test answers, and no kind of message.
pub fn take(side: Side, message: Message, opens: bool) -> Taken
    ensures answer { taken_answer result ≡ taking opens (state_of side) message }
    ensures values { TakenBy side result }
{
    if side.is_in_turn(message) {
        return take_in_turn(side, message, opens);
    }
    match side.slot_of(message.mark) {
        Some(i) => take_recalled(side, message, i, opens),
        None => {
            if message.mark.link == side.drawn {
                take_new(side, message, opens)
            } else {
                Taken::Refused(side, Refusal::Unknown)
            }
        }
    }
}
