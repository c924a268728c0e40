// The words of the protocol: which message, and why a step is refused.
ghost use Rattle.std.specs.Prelude.{◌≡◌, ◌∷◌, ◌++◌, Some, decimal};
ghost use Rattle.ratchet.specs.Numbers.{number};

use std::fmt;

// Which message. A link is a run of messages that one side sends until the other answers;
// links are numbered from 0, and a message's place counts from 0 on its link.
#[derive(Clone, Copy, Debug, PartialEq, Eq, PartialOrd, Ord)]
pub struct Mark {
    pub link: u32,
    pub place: u32,
}

// LINK/PLACE
impl fmt::Display for Mark {
    ghost output = { λ m. Some (decimal m.link ++ 47 ∷ decimal m.place) };

    fn fmt<W: fmt::Write>(&self, f: &mut fmt::Formatter<W>) -> fmt::Result {
        let link = self.link;
        let place = self.place;
        write!(f, "{link}/{place}")
    }
}

// A message by what its header says: which it is, and how many its sender sent on its link before.
#[derive(Clone, Copy, Debug, PartialEq, Eq)]
pub struct Message {
    pub mark: Mark,
    pub before: u32,
}

// Why a step is refused; the number of each is what programs print.
#[derive(Clone, Copy, Debug, PartialEq, Eq, Hash)]
pub enum Refusal {
    // 1: a text above 1,000 bytes, or bytes that are no message
    Malformed,
    // 2: there is no link to send on yet
    NoLink,
    // 3: neither on the link taken on at the next place or after, nor on a new link, nor put aside
    Unknown,
    // 4: too many places passed over, or too many keys put aside
    TooMany,
    // 5: it doesn't open
    NotOpened,
    // 6: a link, place or count would pass 4,294,967,295
    Exhausted,
}

// The number that programs print.
impl From<Refusal> for u8 {
    ghost from_gives = { λ why n. n ≡ number why };

    fn from(why: Refusal) -> u8 {
        match why {
            Refusal::Malformed => 1,
            Refusal::NoLink => 2,
            Refusal::Unknown => 3,
            Refusal::TooMany => 4,
            Refusal::NotOpened => 5,
            Refusal::Exhausted => 6,
        }
    }
}

impl fmt::Display for Refusal {
    ghost output = { λ why. Some (decimal (number why)) };

    fn fmt<W: fmt::Write>(&self, f: &mut fmt::Formatter<W>) -> fmt::Result {
        let number = u8::from(*self);
        write!(f, "{number}")
    }
}

// What a call answers that keeps nothing: the side as it was, and why.
#[derive(Clone, Copy, Drop)]
pub struct Refused<S> {
    pub side: S,
    pub why: Refusal,
}
