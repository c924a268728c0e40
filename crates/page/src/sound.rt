// What is tested of the counts, chains and marks of a page.
ghost use Rattle.std.specs.Prelude.{◌≡◌, Decides};
ghost use Rattle.std.specs.List.{AllByRecursion};
ghost use Rattle.ratchet.specs.State.{state_of};
ghost use Rattle.exchange.specs.Held.{blank};
ghost use Rattle.page.specs.Valid.{Rising, Aside, Untaken, Unsent, Begun, parity_of, Sound};

use chain::ChainKey;
use octets::same;
use ratchet::types::Mark;
use runs::types::Who;
use session::Session;

// Whether each mark is on a lower link than the next, or at a lower place of the same link.
fn are_rising(marks: &[Mark]) -> bool
    ensures { Decides result (Rising marks.now) }
{
    marks.is_sorted_by(|a, b| a < b)
}

// Whether a side with these counts can have put a key aside: its link is one that it takes on or took on, and it was passed over.
fn is_aside(mark: Mark, drawn: u32, taken: u32) -> bool
    ensures { Decides result (Aside drawn taken mark) }
{
    if drawn < 2 || mark.link > drawn - 2 || mark.link % 2 != drawn % 2 {
        return false;
    }
    mark.link < drawn - 2 || mark.place < taken
}

// Whether it can have put all of these aside.
fn are_aside(marks: &[Mark], drawn: u32, taken: u32) -> bool
    ensures { Decides result (AllByRecursion (Aside drawn taken) marks.now) }
{
    marks.iter().all(|mark| is_aside(*mark, drawn, taken))
}

// Whether a chain is zeros: there is no such link.
fn is_none(chain: &ChainKey) -> bool
    ensures { Decides result (chain.now.0 ≡ blank) }
{
    same(&chain.0, &[0; 32])
}

// Whether nothing was taken.
fn is_untaken(session: &Session) -> bool
    ensures { Decides result (Untaken (state_of session.now.side) session.now.taking.0) }
{
    let side = &session.side;
    side.taken == 0 && side.before == 0 && side.aside().is_empty() && is_none(&session.taking)
}

// Whether nothing was sent.
fn is_unsent(session: &Session) -> bool
    ensures { Decides result (Unsent (state_of session.now.side) session.now.sending.0) }
{
    session.side.sent == 0 && is_none(&session.sending)
}

// Whether counts and chains go with the number of the last key. By ifs: what is asked at 0, at 1, at 2 and above 2 overlaps.
fn is_begun(session: &Session) -> bool
    ensures { Decides result (Begun (state_of session.now.side) session.now.sending.0 session.now.taking.0) }
{
    let side = &session.side;
    if side.drawn >= 2 {
        return side.taken != 0 && (side.drawn > 2 || side.before == 0);
    }
    is_untaken(session) && (side.drawn == 1 || is_unsent(session))
}

// The remainder of the numbers of a side's keys by 2: the first side's are odd, so that `as` doesn't give it.
fn parity_of(who: Who) -> u32
    ensures { result ≡ parity_of who }
{
    match who {
        Who::First => 1,
        Who::Second => 0,
    }
}

// Whether counts, chains and marks go together, and are those of this side.
pub(crate) fn is_sound(who: Who, session: &Session) -> bool
    ensures { Decides result (Sound who (state_of session.now.side) session.now.sending.0 session.now.taking.0) }
{
    let side = &session.side;
    side.drawn % 2 == parity_of(who)
        && is_begun(session)
        && are_rising(side.aside())
        && are_aside(side.aside(), side.drawn, side.taken)
}
