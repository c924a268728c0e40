// A message that came, and was read.
ghost use Rattle.std.specs.Prelude.{◌≤◌, length};

use wire::Header;

// Its header, and all its bytes: a header, a sealed text that is not too long, and a tag.
#[derive(Drop)]
pub(crate) struct Incoming<'a> {
    pub header: Header,
    pub bytes: &'a [u8],
    ghost long: { 63 ≤ length bytes.now },
    ghost short: { length bytes.now ≤ 1063 },
}
