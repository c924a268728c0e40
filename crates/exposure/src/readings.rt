// What is asked of the sides that were read out, by the rule and by working out alike.
// The contracts here and in the rule speak of `map state_of readings.now` each time: it is what the laws of a run are about.
ghost use Rattle.std.specs.Prelude.{◌≡◌, true, [], ◌∷◌, map, IfOk, OnOk, Decides};
ghost use Rattle.ratchet.specs.State.{state_of, has};
ghost use Rattle.runs.specs.Rule.{read_at};
ghost use Rattle.chain.specs.Secret.{own, root_of};
ghost use Rattle.runs.specs.Stock.{stocks};
ghost use Rattle.runs.specs.Working.{in_stock};
ghost use Rattle.exposure.specs.Sets.{Adds, Aside, Held};

use notation::faults::Fault;
use ratchet::sides::Side;
use ratchet::types::Mark;
use std::alloc::Global;
use std::collections::BTreeSet;

// Was a side read that had drawn key n: it held the secret half of key n, and with it root n.
pub fn read_at(readings: &[Side], n: u64) -> bool
    ensures read { result ≡ read_at (map state_of readings.now) n }
    ensures half { result ≡ in_stock (own n) (stocks (map state_of readings.now)) }
    ensures root { result ≡ in_stock (root_of n) (stocks (map state_of readings.now)) }
{
    readings.iter().any(|side| side.drawn as u64 == n)
}

// Adds a mark to a set; it is looked for first, since most are there already, and to put one in that is there costs twice as much as to look.
fn add(set: &mut BTreeSet<Mark>, mark: Mark) -> Result<(), Fault>
    ensures { OnOk result (Adds set.old.keys (mark ∷ []) set.new.keys) }
{
    if set.contains(&mark) {
        return Ok(());
    }
    set.insert(mark)?;
    Ok(())
}

// Adds some marks to a set; one by one, since there may be no memory for any of them.
fn add_all(set: &mut BTreeSet<Mark>, marks: &[Mark]) -> Result<(), Fault>
    ensures { OnOk result (Adds set.old.keys marks.now set.new.keys) }
{
    for mark in marks {
        add(set, *mark)?;
    }
    Ok(())
}

// Are some marks the same as others, in the same order. A function of its own, since its clause is what the proof of `add_new` goes by.
fn are_same(marks: &[Mark], others: &[Mark]) -> bool
    ensures { Decides result (marks.now ≡ others.now) }
{
    marks == others
}

// Adds the marks of a reading to a set that holds those of the last two readings; mostly they are those of one of these again, and nothing is added.
fn add_new(
    set: &mut BTreeSet<Mark>,
    marks: &[Mark],
    last: &[Mark],
    before: &[Mark],
) -> Result<(), Fault>
    requires last { (m : Mark) → has m last.now ≡ true → has m set.old.keys ≡ true }
    requires before { (m : Mark) → has m before.now ≡ true → has m set.old.keys ≡ true }
    ensures { OnOk result (Adds set.old.keys marks.now set.new.keys) }
{
    if are_same(marks, last) {
        return Ok(());
    }
    if are_same(marks, before) {
        return Ok(());
    }
    add_all(set, marks)
}

// The messages whose keys some side that was read had put aside, and so held itself.
// The marks of two readings are kept to be compared with, since the two sides may be read in turns.
pub fn put_aside(heap: Global, readings: &[Side]) -> Result<BTreeSet<Mark>, Fault>
    ensures aside { IfOk result (λ set. Aside (map state_of readings.now) set.keys) }
    ensures held { IfOk result (λ set. Held (map state_of readings.now) set.keys) }
{
    let mut marks = BTreeSet::new(heap);
    let mut last: &[Mark] = &[];
    let mut before: &[Mark] = &[];
    for side in readings {
        add_new(&mut marks, side.aside(), last, before)?;
        before = last;
        last = side.aside();
    }
    Ok(marks)
}
