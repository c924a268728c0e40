// The tag of a sealed text: how it is made, and how a tag that came is held against it.
ghost use Rattle.std.specs.Prelude.{◌≡◌, Decides};
ghost use Rattle.seal.specs.Sealing.{tag_of};

use crate::keys::{MessageKey, Tag};
use digest::{hmac, hmac_parts};
use octets::{part_at, same, wipe, work_into_first};

// What the message's key is digested with for the key of the tag.
const TAG_LABEL: [u8; 1] = [3];

// The tag of a covered text behind a header. It has a key of its own.
pub(crate) fn tag(key: &MessageKey, header: &[u8], covered: &[u8]) -> Tag
    ensures { result.0 ≡ tag_of key.now.0 header.now covered.now }
{
    let mut tag_key = hmac(&key.0, &TAG_LABEL);
    let mut digest = hmac_parts(&tag_key, header, covered);
    let mut made = Tag(part_at(&digest, 0));
    let left = wipe(&mut tag_key, 0, covered.len()) | wipe(&mut digest, 0, covered.len());
    work_into_first(left, &mut made.0);
    made
}

// Whether a tag is that of a covered text behind a header.
pub(crate) fn belongs(key: &MessageKey, header: &[u8], covered: &[u8], came: &Tag) -> bool
    ensures { Decides result (came.now.0 ≡ tag_of key.now.0 header.now covered.now) }
{
    let mut made = tag(key, header, covered);
    let answer = same(&came.0, &made.0);
    wipe(&mut made.0, 0, covered.len()) == 0 && answer
}
