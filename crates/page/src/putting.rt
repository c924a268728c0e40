// Putting the parts of a page into lent bytes.
ghost use Rattle.std.specs.Prelude.{◌≡◌, ◌+◌, ◌*◌, ◌≤◌, ◌++◌, map, length, take, drop};
ghost use Rattle.ratchet.specs.State.{state_of};
ghost use Rattle.session.specs.Views.{key_in};
ghost use Rattle.page.specs.Layout.{count_bytes, entry_bytes, aside_bytes};

use octets::put;
use ratchet::sides::Side;
use ratchet::types::Mark;
use seal::MessageKey;

// The other places of a page stand as numbers, as its layout in specs/ gives them.

// What every page begins with.
pub(crate) const VERSION: u8 = 1;

// How many stand before the keys put aside.
pub(crate) const FRONT: usize = 147;

// How many each key put aside takes, with its mark.
pub(crate) const ENTRY: usize = 40;

// How many the digest has.
pub(crate) const DIGEST: usize = 32;

// The version and the four counts, at the front.
pub(crate) fn put_counts(side: &Side, out: &mut [u8; 20659])
    ensures { out.new ≡ count_bytes (state_of side.now) ++ drop 17 out.old }
{
    put(out, 0, &[VERSION]);
    put(out, 1, &side.drawn.to_be_bytes());
    put(out, 5, &side.sent.to_be_bytes());
    put(out, 9, &side.taken.to_be_bytes());
    put(out, 13, &side.before.to_be_bytes());
}

// A key put aside, with its mark, from a place on.
fn put_entry(mark: Mark, key: &MessageKey, out: &mut [u8], at: usize)
    requires { at + 40 ≤ length out.old }
    ensures { out.new ≡ take at out.old ++ (entry_bytes mark key.now.0 ++ drop (at + 40) out.old) }
{
    put(out, at, &mark.link.to_be_bytes());
    put(out, at + 4, &mark.place.to_be_bytes());
    put(out, at + 8, &key.0);
}

// The keys put aside, one behind another.
pub(crate) fn put_aside(marks: &[Mark], keys: &[MessageKey], out: &mut [u8])
    requires step { length keys.now ≡ length marks.now }
    requires room { length out.old ≡ 40 * length marks.now }
    ensures { out.new ≡ aside_bytes marks.now (map key_in keys.now) }
{
    // a running place: after a loop over `chunks_exact_mut` the proof knows nothing of what was written
    let mut at = 0;
    for (mark, key) in marks.iter().zip(keys) {
        put_entry(*mark, key, out, at);
        at += ENTRY;
    }
}
