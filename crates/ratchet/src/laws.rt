// A theorem on the contract of a function.
ghost use Rattle.std.specs.Prelude.{◌≡◌};
ghost use Rattle.ratchet.specs.Same.{same_mark, same_message};

use crate::types::{Mark, Message};

// Marks, and messages, are equal exactly if they agree in every part.
pub fn equality_reads_every_part()
    ensures marks { (a b : Mark) → ⟦<Mark as PartialEq>⟧.eq a b ≡ same_mark a b }
    ensures messages { (a b : Message) → ⟦<Message as PartialEq>⟧.eq a b ≡ same_message a b }
{}
