// Where a message has its place with a side: on the link taken on, or among the keys put aside.
ghost use Rattle.std.specs.Prelude.{◌≡◌, position};
ghost use Rattle.ratchet.specs.Same.{same_mark};
ghost use Rattle.ratchet.specs.State.{state_of};
ghost use Rattle.ratchet.specs.Steps.{in_turn, left};

use crate::sides::Side;
use crate::slots;
use crate::types::{Mark, Message};

impl Side {
    // The marks of the keys put aside.
    pub fn aside(&self) -> &[Mark]
        ensures { result.now ≡ (state_of self.now).skipped }
    {
        &self.marks[0..self.count]
    }

    // In which slot the key of a message was put aside, if it was.
    pub fn slot_of(&self, mark: Mark) -> Option<usize>
        ensures { result ≡ position (λ x. same_mark x mark) (state_of self.now).skipped }
    {
        slots::position(self.aside(), mark)
    }

    // Is the message on the link that the side takes on, two below its last key, at the next place or after.
    pub fn is_in_turn(&self, message: Message) -> bool
        ensures { result ≡ in_turn (state_of self.now) message }
    {
        self.drawn >= 2 && message.mark.link == self.drawn - 2 && self.taken <= message.mark.place
    }

    // How many places are left on the old link when the other says how many it sent on it.
    pub fn left_over(&self, message: Message) -> u32
        ensures { result ≡ left (state_of self.now) message }
    {
        if self.drawn < 2 {
            return 0;
        }
        message.before.saturating_sub(self.taken)
    }
}
