// Sealing a text behind a header, and opening it again. Key, header, text and output are apart, since each is lent by itself.
ghost use Rattle.std.specs.Prelude.{◌≡◌, length};
ghost use Rattle.seal.specs.Answers.{SealAnswer, OpenAnswer, UndoesSealing};
ghost use Rattle.seal.specs.Sealing.{covered, ExactlySealed};
ghost use Rattle.seal.specs.Streaming.{Counts};

use crate::cipher::{apply, counts};
use crate::keys::{MessageKey, Nonce, Tag};
use crate::tagging::{belongs, tag};
use octets::part_at;

// How many bytes a tag has.
pub const TAG_SIZE: usize = 16;

// The stream's first counter for a text.
const FIRST: u32 = 1;

// Why a text was not sealed.
#[derive(Clone, Copy, PartialEq, Eq, Debug)]
pub enum SealError {
    // The stream is shorter than the text.
    TooLong,
    // The output is shorter than the text and its tag.
    NoRoom,
}

// Why nothing was opened.
#[derive(Clone, Copy, PartialEq, Eq, Debug)]
pub enum OpenError {
    // The stream is shorter than the text.
    TooLong,
    // The output is shorter than the text.
    NoRoom,
    // The tag is not that of this key, header and text.
    Forged,
}

// A text under the stream, into an output of its length. Of a covered text this makes the text again.
fn cover(key: &MessageKey, text: &[u8], out: &mut [u8])
    requires { (Counts 1 (length text.now)) × (length out.old ≡ length text.now) }
    ensures { out.new ≡ covered key.now.0 text.now }
{
    out.copy_from_slice(text);
    apply(key, &Nonce([0; 12]), FIRST, out);
}

// Seals a text behind a header: the covered text and its tag stand at the front of the output, which is lent, as asked for; so the answer is their length.
pub fn seal(
    key: &MessageKey,
    header: &[u8],
    text: &[u8],
    out: &mut [u8],
) -> Result<usize, SealError>
    ensures { SealAnswer key.now.0 header.now text.now out.old out.new result }
{
    let size = text.len();
    if !counts(FIRST, size) {
        return Err(SealError::TooLong);
    }
    if out.len() < TAG_SIZE || out.len() - TAG_SIZE < size {
        return Err(SealError::NoRoom);
    }
    cover(key, text, &mut out[0..size]);
    let made = tag(key, header, &out[0..size]);
    out[size..size + TAG_SIZE].copy_from_slice(&made.0);
    Ok(size + TAG_SIZE)
}

// What `open` answers, a length of lent output as well, and leaves. Apart, since its laws follow from this answer alone, whichever it is.
fn uncover(key: &MessageKey, header: &[u8], body: &[u8], out: &mut [u8]) -> Result<usize, OpenError>
    ensures { OpenAnswer key.now.0 header.now body.now out.old out.new result }
{
    let size = body.len().saturating_sub(TAG_SIZE);
    if !counts(FIRST, size) {
        return Err(OpenError::TooLong);
    }
    if out.len() < size {
        return Err(OpenError::NoRoom);
    }
    if body.len() < TAG_SIZE {
        return Err(OpenError::Forged);
    }
    if !belongs(key, header, &body[0..size], &Tag(part_at(body, size))) {
        return Err(OpenError::Forged);
    }
    cover(key, &body[0..size], &mut out[0..size]);
    Ok(size)
}

// Opens what stands behind a header, a covered text and its tag: the text stands at the front of the output, which is lent, as asked for; so the answer is its length.
pub fn open(
    key: &MessageKey,
    header: &[u8],
    body: &[u8],
    out: &mut [u8],
) -> Result<usize, OpenError>
    ensures answer { OpenAnswer key.now.0 header.now body.now out.old out.new result }
    ensures undoes { UndoesSealing key.now.0 header.now body.now out.old out.new result }
    ensures genuine { ExactlySealed key.now.0 header.now body.now }
{
    uncover(key, header, body, out)
}
