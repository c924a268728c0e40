// What stands in slots: putting a run of marks into them, finding a mark, taking one thing out.
ghost use Rattle.std.specs.Prelude.{◌≡◌, ◌+◌, ◌-◌, ◌<◌, ◌≤◌, [], ◌∷◌, ◌++◌, length, position};
ghost use Rattle.std.proofs.Math.Seq.{paste};
ghost use Rattle.std.specs.List.{remove};
ghost use Rattle.ratchet.specs.Same.{same_mark};
ghost use Rattle.ratchet.specs.State.{places};

use crate::types::Mark;

// Writes the marks of a link's places `from` to `upto` - 1 into the slots from `at` on; a run is named by its link and ends, as in the rules.
pub(crate) fn put(slots: &mut [Mark], at: usize, link: u32, from: u32, upto: u32)
    requires ordered { from ≤ upto }
    requires within { at + (upto - from) ≤ length slots.old }
    ensures { slots.new ≡ paste slots.old at (places link from (upto - from)) (upto - from) }
{
    // the number is that of a place too, so a chain over the slots would be no plainer
    for i in 0..upto - from {
        let place = from + i;
        slots[at + i as usize] = Mark { link, place };
    }
}

// Where the first mark that is this one is among some. One by one, as the definition goes: there are 512 at most.
pub fn position(marks: &[Mark], mark: Mark) -> Option<usize>
    ensures { result ≡ position (λ x. same_mark x mark) marks.now }
{
    marks.iter().position(|x| *x == mark)
}

// Takes what stands at `i` out: those behind it move down, and the last slot is blank.
// It has a `requires`: the number is one that a search of the same slots found.
pub fn take_out<T: Drop>(slots: &mut [T], i: usize, blank: T)
    requires { i < length slots.old }
    ensures { slots.new ≡ remove slots.old i ++ blank ∷ [] }
{
    let n = slots.len();
    slots[i..n].rotate_left(1);
    slots[n - 1] = blank;
}
