// What a rehearsal prints, line by line; each contract names the bytes that then stand behind those that were there, where there was memory.
// A line of one piece, and a mark, is made first, in memory of its own, and then put whole or not at all: where memory is wanted, nothing ends in its midst.
ghost use Rattle.std.specs.Prelude.{◌≡◌, ◌++◌, OnOk, OnErr};
ghost use Rattle.ratchet.specs.State.{state_of};
ghost use Rattle.stage.specs.declared.types.Taking.TheVariants.{Opened};
ghost use Rattle.script.specs.Output.{marked_line, opened_line, read_line, sending_line, taking_line, text_part, link_text, spaced_mark, marks_text, links_text, side_line};

use notation::faults::Fault;
use notation::text::{put, put_text};
use ratchet::sides::Side;
use ratchet::types::Mark;
use runs::types::Who;
use stage::types::{Sending, Taking};
use std::io::Write;

// `M L/P WORD`
fn put_marked(out: &mut Vec<u8>, number: usize, mark: Mark, word: &str) -> Result<(), Fault>
    ensures line { OnOk result (out.new.items ≡ out.old.items ++ marked_line number mark word.now) }
    ensures whole { OnErr result (out.new.items ≡ out.old.items) }
{
    let line = format!(in *out.allocator(); "{number} {mark} {word}\n")?;
    put(out, &line)
}

// What a send came to; `number` is the message's, if there is one. An arm for each line, though two differ in a word alone.
pub fn put_sending(out: &mut Vec<u8>, number: usize, outcome: Sending) -> Result<(), Fault>
    ensures line { OnOk result (out.new.items ≡ out.old.items ++ sending_line number outcome) }
    ensures whole { OnErr result (out.new.items ≡ out.old.items) }
{
    let heap = *out.allocator();
    match outcome {
        Sending::Sent(message) => put_marked(out, number, message.mark, "sent"),
        Sending::Lost(message) => put_marked(out, number, message.mark, "lost"),
        Sending::Stopped => put(out, "stopped\n"),
        Sending::Refused(why) => put(out, &format!(in heap; "refused {why}\n")?),
    }
}

// A text behind a space, if it has any bytes.
fn put_text_part(out: &mut Vec<u8>, text: &[u8]) -> Result<(), Fault>
    ensures { OnOk result (out.new.items ≡ out.old.items ++ text_part text.now) }
{
    if text.is_empty() {
        return Ok(());
    }
    out.push(b' ')?;
    put_text(out, text)
}

// `M opened TEXT`
fn put_opened(out: &mut Vec<u8>, number: usize, text: &[u8]) -> Result<(), Fault>
    ensures { OnOk result (out.new.items ≡ out.old.items ++ opened_line number text.now) }
{
    write!(out, "{number} opened")?;
    put_text_part(out, text)?;
    out.push(b'\n')?;
    Ok(())
}

// What taking message `number`, with this text, came to.
pub fn put_taking(
    out: &mut Vec<u8>,
    number: usize,
    text: &[u8],
    outcome: Taking,
) -> Result<(), Fault>
    ensures line { OnOk result (out.new.items ≡ out.old.items ++ taking_line number text.now outcome) }
    ensures whole { OnErr result ((outcome ≡ Opened → ⊥) → out.new.items ≡ out.old.items) }
{
    let heap = *out.allocator();
    match outcome {
        Taking::Opened => put_opened(out, number, text),
        Taking::Lost => put(out, &format!(in heap; "{number} lost\n")?),
        Taking::Stopped => put(out, "stopped\n"),
        Taking::Refused(why) => put(out, &format!(in heap; "{number} refused {why}\n")?),
    }
}

// `S read`
pub fn put_read(out: &mut Vec<u8>, who: Who) -> Result<(), Fault>
    ensures line { OnOk result (out.new.items ≡ out.old.items ++ read_line who) }
    ensures whole { OnErr result (out.new.items ≡ out.old.items) }
{
    put(out, &format!(in *out.allocator(); "{who} read\n")?)
}

// A link and a place on it, or `-` where there is no such link: the side has drawn fewer than `least` keys.
fn put_link(out: &mut Vec<u8>, drawn: u32, least: u32, place: u32) -> Result<(), Fault>
    ensures { OnOk result (out.new.items ≡ out.old.items ++ link_text drawn least place) }
{
    match drawn.checked_sub(least) {
        Some(link) => {
            let mark = Mark { link, place };
            put(out, &format!(in *out.allocator(); "{mark}")?)
        }
        None => put(out, "-"),
    }
}

// A mark behind a space.
fn put_spaced(out: &mut Vec<u8>, mark: Mark) -> Result<(), Fault>
    ensures { OnOk result (out.new.items ≡ out.old.items ++ spaced_mark mark) }
{
    put(out, &format!(in *out.allocator(); " {mark}")?)
}

// The marks of the keys put aside, each behind a space; `-` where there are none. A loop, since any of them may find no memory.
fn put_marks(out: &mut Vec<u8>, marks: &[Mark]) -> Result<(), Fault>
    ensures { OnOk result (out.new.items ≡ out.old.items ++ marks_text marks.now) }
{
    if marks.is_empty() {
        return put(out, " -");
    }
    for mark in marks {
        put_spaced(out, *mark)?;
    }
    Ok(())
}

// Where a side sends and takes.
fn put_links(out: &mut Vec<u8>, side: &Side) -> Result<(), Fault>
    ensures { OnOk result (out.new.items ≡ out.old.items ++ links_text (state_of side.now)) }
{
    write!(out, "; sends ")?;
    put_link(out, side.drawn, 1, side.sent)?;
    write!(out, "; takes ")?;
    put_link(out, side.drawn, 2, side.taken)
}

// What one side holds, by link and place.
pub fn put_side(out: &mut Vec<u8>, who: Who, side: &Side) -> Result<(), Fault>
    ensures { OnOk result (out.new.items ≡ out.old.items ++ side_line who (state_of side.now)) }
{
    let drawn = side.drawn;
    let before = side.before;
    write!(out, "{who}: drawn {drawn}; root {drawn}")?;
    put_links(out, side)?;
    write!(out, "; before {before}; aside")?;
    put_marks(out, side.aside())?;
    out.push(b'\n')?;
    Ok(())
}
