// Writing a page.
ghost use Rattle.std.specs.Prelude.{◌≡◌, ◌+◌, ◌*◌, ◌≤◌, List, ◌++◌, length, take, drop};
ghost use Rattle.seal.specs.declared.keys.MessageKey.{MessageKey as Key};
ghost use Rattle.session.specs.Views.{held_of};
ghost use Rattle.page.specs.Layout.{front_bytes, body_bytes, page_bytes};

use crate::putting::{DIGEST, ENTRY, FRONT, put_aside, put_counts};
use digest::sha256;
use octets::put;
use seal::MessageKey;
use session::Session;

// How many bytes a page has at most: with 512 keys put aside.
pub const LONGEST_PAGE: usize = 20659;

// The counts, and the keys that are in use.
fn put_front(session: &Session, out: &mut [u8; 20659])
    ensures { (slots : List Key) → out.new ≡ front_bytes (held_of session.now slots) ++ drop 145 out.old }
{
    put_counts(&session.side, out);
    put(out, 17, &session.half.0);
    put(out, 49, &session.root.0);
    put(out, 81, &session.sending.0);
    put(out, 113, &session.taking.0);
}

// All before the digest, into the lent output; so the answer is its length.
fn put_body(session: &Session, slots: &[MessageKey; 512], out: &mut [u8; 20659]) -> usize
    ensures bytes { out.new ≡ body_bytes (held_of session.now slots.now) ++ drop result out.old }
    ensures size { result ≡ 147 + 40 * session.now.side.count }
{
    let count = session.side.count;
    let end = FRONT + ENTRY * count;
    put_front(session, out);
    put(out, 145, &(count as u16).to_be_bytes());
    // the marks as a part of their array, of which the proof knows how long it is: of what `aside` gives it doesn't
    put_aside(
        &session.side.marks[0..count],
        &slots[0..count],
        &mut out[FRONT..end],
    );
    end
}

// Writes the page of a side to the front of an output, which is lent, as asked for; so the answer is its length.
pub fn write_page(session: &Session, slots: &[MessageKey; 512], out: &mut [u8; 20659]) -> usize
    ensures page { take result out.new ≡ page_bytes (held_of session.now slots.now) }
    ensures rest { drop result out.new ≡ drop result out.old }
    ensures size { result ≡ 179 + 40 * session.now.side.count }
{
    let end = put_body(session, slots, out);
    let digest = sha256(&out[..end]);
    put(out, end, &digest);
    end + DIGEST
}
