// The keys put aside, from a page into their slots.
ghost use Rattle.std.specs.Prelude.{◌≡◌, ◌-◌, ◌*◌, ◌≤◌, map, length, take, drop, replicate};
ghost use Rattle.exchange.specs.Held.{blank};
ghost use Rattle.session.specs.Views.{key_in};
ghost use Rattle.page.specs.Parts.{keys_in};

use crate::pages::Page;
use crate::putting::{ENTRY, FRONT};
use octets::part_at;
use seal::MessageKey;

// Copies the key of each entry into a slot.
fn fill(slots: &mut [MessageKey], entries: &[u8])
    requires { 40 * length slots.old ≤ length entries.now }
    ensures { map key_in slots.new ≡ keys_in (length slots.old) entries.now }
{
    // By number: of what is written through a zip of `iter_mut` the proof learns nothing.
    for (i, slot) in slots.iter_mut().enumerate() {
        slot.0 = part_at(entries, ENTRY * i + 8);
    }
}

// Overwrites slots with zeros. A loop of its own: keys are not Copy, as `octets::wipe` asks, and have no Clone, as `fill` asks.
fn clear(slots: &mut [MessageKey])
    ensures { slots.new ≡ replicate (length slots.old) (record { 0 = blank }) }
{
    for slot in slots.iter_mut() {
        *slot = MessageKey([0; 32]);
    }
}

impl Page<'_> {
    // Puts the keys of its entries into the first slots, and zeros into the others.
    pub(crate) fn restore(&self, slots: &mut [MessageKey; 512])
        ensures keys { map key_in (take self.now.count slots.new) ≡ keys_in self.now.count (drop 147 self.now.bytes.now) }
        ensures rest { drop self.now.count slots.new ≡ replicate (512 - self.now.count) (record { 0 = blank }) }
    {
        fill(&mut slots[..self.count], &self.bytes[FRONT..]);
        clear(&mut slots[self.count..]);
    }
}
