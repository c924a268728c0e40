// What a side keeps: its counts, and the marks of the keys put aside.
ghost use Rattle.std.specs.Prelude.{◌≡◌, ◌-◌, ◌≤◌, drop, replicate};
ghost use Rattle.ratchet.specs.Blank.{blank};

use crate::types::Mark;

// The most keys that are put aside at a time.
pub const ROOM: usize = 512;

// A slot that holds no mark.
pub const BLANK: Mark = Mark { link: 0, place: 0 };

// One side. With key `drawn` drawn it sends on link drawn - 1 and takes on link drawn - 2, where there are such.
#[derive(Clone, Copy)]
pub struct Side {
    // the number of its last key
    pub drawn: u32,
    // how many it has sent on its link
    pub sent: u32,
    // the next place of the link that it takes on
    pub taken: u32,
    // how many it had sent on its link before
    pub before: u32,
    // how many keys are put aside
    pub count: usize,
    // their marks, in order of link and place, and blanks behind them: an array beside its count, since a side takes no memory from a heap
    pub marks: [Mark; 512],
    ghost few: { count ≤ 512 },
    ghost rest: { drop count marks ≡ replicate (512 - count) blank },
}
