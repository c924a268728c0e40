// A box whose keys are numbers.
ghost use Rattle.std.specs.Prelude.{◌≡◌, ◌++◌, take, None};
ghost use Rattle.std.specs.Option.{option_map};
ghost use Rattle.keybox.specs.Box.{bytes_in};
ghost use Rattle.keybox.specs.Numbers.{key_of, number_half, number_joint, numbers, NumbersAgree};

use crate::boxes::KeyBox;
use chain::{JointSecret, PublicHalf};
use runs::types::Who;

// A box of numbers: whose it is, how many keys it has drawn and can draw in all, and its keys by their draws.
#[derive(Clone, Copy)]
pub struct NumberBox {
    who: Who,
    drawn: u64,
    limit: u64,
    last: Option<u64>,
    fresh: Option<u64>,
}

// The public half of a key. Its first byte is the side's case as a number, 0 or 1, in the order of `Who`.
fn half_of(who: Who, draw: u64) -> PublicHalf
    ensures { result.0 ≡ number_half (key_of who draw) }
{
    let mut half = [0; 32];
    half[0] = who as u8;
    half[8..16].copy_from_slice(&draw.to_be_bytes());
    PublicHalf(half)
}

// The names in two public halves, one behind the other.
fn beside(first: &PublicHalf, second: &PublicHalf) -> JointSecret
    ensures { result.0 ≡ take 16 first.now.0 ++ take 16 second.now.0 }
{
    let mut both = first.0;
    both[16..32].copy_from_slice(&second.0[0..16]);
    JointSecret(both)
}

// What a key gives with a public half, if that is the other side's.
fn joint_of(who: Who, draw: u64, theirs: &PublicHalf) -> Option<JointSecret>
    ensures { bytes_in result ≡ number_joint (key_of who draw) theirs.now.0 }
{
    let own = half_of(who, draw);
    match (who, theirs.0[0]) {
        (Who::First, 1) => Some(beside(&own, theirs)),
        (Who::Second, 0) => Some(beside(theirs, &own)),
        _ => None,
    }
}

impl NumberBox {
    // A box of a side that can draw so many keys and holds none.
    pub fn new(who: Who, limit: u64) -> NumberBox
        ensures { result ≡ record { who = who; drawn = 0; limit = limit; last = None; fresh = None } }
    {
        NumberBox {
            who,
            drawn: 0,
            limit,
            last: None,
            fresh: None,
        }
    }
}

impl KeyBox for NumberBox {
    ghost keys = { λ b. record { last = option_map (key_of b.who) b.last; fresh = option_map (key_of b.who) b.fresh; next = key_of b.who b.drawn } };

    ghost scheme = { numbers };

    fn draw(&mut self) -> Option<PublicHalf> {
        if self.drawn >= self.limit {
            return None;
        }
        let draw = self.drawn;
        self.drawn = draw + 1;
        self.fresh = Some(draw);
        Some(half_of(self.who, draw))
    }

    fn joint(&self, theirs: &PublicHalf) -> Option<JointSecret> {
        joint_of(self.who, self.last?, theirs)
    }

    fn joint_fresh(&self, theirs: &PublicHalf) -> Option<JointSecret> {
        joint_of(self.who, self.fresh?, theirs)
    }

    fn keep(&mut self) {
        self.last = self.fresh.or(self.last);
        self.fresh = None;
    }

    fn forget(&mut self) {
        self.fresh = None;
    }
}

// Two boxes of numbers keep the law: a key with the other's public half gives what the other gives with its.
pub fn numbers_agree()
    ensures { NumbersAgree }
{}
