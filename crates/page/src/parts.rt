// The parts of a page, by where they stand. What reads at a place has a `requires`: that a page is long enough is tested before.
ghost use Rattle.std.specs.Prelude.{◌≡◌, ◌+◌, ◌-◌, ◌*◌, ◌≤◌, ◌++◌, length, drop, replicate};
ghost use Rattle.ratchet.specs.Blank.{blank as noMark};
ghost use Rattle.ratchet.specs.State.{state_of};
ghost use Rattle.exchange.specs.Wire.{four_at};
ghost use Rattle.page.specs.Parts.{mark_at, marks_in, state_in, Says};

use crate::pages::Page;
use crate::putting::{ENTRY, FRONT};
use chain::{ChainKey, PublicHalf, RootKey};
use octets::part_at;
use ratchet::sides::{BLANK, Side};
use ratchet::types::Mark;
use session::Session;

// The number in the four bytes from a place on. Who reads words says in which order of bytes, so each crate has such a line.
fn four_at(bytes: &[u8], at: usize) -> u32
    requires { at + 4 ≤ length bytes.now }
    ensures { result ≡ four_at bytes.now at }
{
    u32::from_be_bytes(part_at(bytes, at))
}

// The mark from a place on.
fn mark_at(bytes: &[u8], at: usize) -> Mark
    requires { at + 8 ≤ length bytes.now }
    ensures { result ≡ mark_at bytes.now at }
{
    Mark {
        link: four_at(bytes, at),
        place: four_at(bytes, at + 4),
    }
}

impl Page<'_> {
    // The marks of the keys put aside, and blanks behind them.
    fn marks(&self) -> [Mark; 512]
        ensures { result ≡ marks_in self.now.count (drop 147 self.now.bytes.now) ++ replicate (512 - self.now.count) noMark }
    {
        // Not by `array::from_fn`, which asks at all 512 places: most pages fill few.
        let mut marks = [BLANK; 512];
        for i in 0..self.count {
            marks[i] = mark_at(&self.bytes[FRONT..], ENTRY * i);
        }
        marks
    }

    // The bookkeeping.
    fn side(&self) -> Side
        ensures state { state_of result ≡ state_in self.now.bytes.now }
        ensures count { result.count ≡ self.now.count }
    {
        Side {
            drawn: four_at(self.bytes, 1),
            sent: four_at(self.bytes, 5),
            taken: four_at(self.bytes, 9),
            before: four_at(self.bytes, 13),
            count: self.count,
            marks: self.marks(),
        }
    }

    // The side, but for the keys put aside.
    pub(crate) fn session(&self) -> Session
        ensures { Says self.now.bytes.now result }
    {
        Session {
            side: self.side(),
            root: RootKey(part_at(self.bytes, 49)),
            sending: ChainKey(part_at(self.bytes, 81)),
            taking: ChainKey(part_at(self.bytes, 113)),
            half: PublicHalf(part_at(self.bytes, 17)),
        }
    }
}
