// What a key box does, and what its answers mean.
ghost use Rattle.std.specs.Prelude.{◌≡◌, MatchOption};
ghost use Rattle.keybox.specs.Box.{Keys, Scheme, Drawn, settled, undrawn, bytes_in, given};

use chain::{JointSecret, PublicHalf};

// A key that is drawn comes into force only when it is kept; until then the one before is in force, and stays so if the drawn one is forgotten.
// Keys are told apart by when they were drawn: one that was forgotten is never drawn again.
pub trait KeyBox {
    ghost keys: { Self → Keys };

    ghost scheme: { Scheme };

    // Draws a key, and gives its public half; without one to be had the box is as it was.
    fn draw(&mut self) -> Option<PublicHalf>
        ensures { MatchOption result (self.new ≡ self.old) (λ h. Drawn scheme (keys self.old) (keys self.new) h.0) };

    // What the key in force gives with a public half.
    fn joint(&self, theirs: &PublicHalf) -> Option<JointSecret>
        ensures { bytes_in result ≡ given scheme (keys self.now).last theirs.now.0 };

    // What the key just drawn gives with a public half.
    fn joint_fresh(&self, theirs: &PublicHalf) -> Option<JointSecret>
        ensures { bytes_in result ≡ given scheme (keys self.now).fresh theirs.now.0 };

    // The key just drawn comes into force, and the one before is erased.
    fn keep(&mut self)
        ensures { keys self.new ≡ settled (keys self.old) };

    // The key just drawn is forgotten.
    fn forget(&mut self)
        ensures { keys self.new ≡ undrawn (keys self.old) };
}
