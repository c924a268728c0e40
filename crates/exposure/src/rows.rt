// Rows: what is printed of each message.
ghost use Rattle.std.specs.Prelude.{◌≡◌, ℕ, ◌<◌, ◌++◌, map, length, OnOk, OnErr, slice_index_or};
ghost use Rattle.ratchet.specs.Blank.{blank};
ghost use Rattle.ratchet.specs.State.{state_of};
ghost use Rattle.exposure.specs.Rows.{row_of, rows_of, Agree};

use crate::rule::Rule;
use crate::working::Workings;
use notation::faults::Fault;
use notation::text::put;
use ratchet::sides::Side;
use ratchet::types::Mark;

// Appends `M L/P open known`, each word by the answer of its function, and so by a bool; the whole row or nothing of it.
pub fn put_row(
    out: &mut Vec<u8>,
    number: usize,
    mark: Mark,
    open: bool,
    known: bool,
) -> Result<(), Fault>
    ensures row { OnOk result (out.new.items ≡ out.old.items ++ row_of number mark «open» known) }
    ensures whole { OnErr result (out.new.items ≡ out.old.items) }
{
    let first = if open { "open" } else { "shut" };
    let second = if known { "known" } else { "unknown" };
    let row = format!(in *out.allocator(); "{number} {mark} {first} {second}\n")?;
    put(out, &row)
}

// A number above every link of some messages.
fn links_above(marks: &[Mark]) -> usize
    ensures { (k : ℕ) → k < length marks.now → (slice_index_or marks.now k blank).link < result }
{
    marks
        .iter()
        .map(|mark| mark.link as usize + 1)
        .max()
        .unwrap_or(0)
}

// Appends a row for each message, numbered from 1.
pub fn put_rows(readings: &[Side], marks: &[Mark], out: &mut Vec<u8>) -> Result<(), Fault>
    ensures rows { OnOk result (out.new.items ≡ out.old.items ++ rows_of (map state_of readings.now) marks.now) }
    ensures agree { Agree (map state_of readings.now) }
{
    let heap = *out.allocator();
    let count = links_above(marks);
    let rule = Rule::new(heap, readings, count)?;
    let workings = Workings::new(heap, readings, count)?;
    for (i, mark) in marks.iter().enumerate() {
        let open = rule.exposed(*mark);
        let known = workings.known(*mark);
        put_row(out, i + 1, *mark, open, known)?;
    }
    Ok(())
}
