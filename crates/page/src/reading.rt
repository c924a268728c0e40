// Reading a page.
ghost use Rattle.page.specs.Reading.{Restoring};

use crate::pages::Page;
use crate::refusal::BadPage;
use crate::sound::is_sound;
use runs::types::Who;
use seal::MessageKey;
use session::Session;

// Reads the page of a side: only bytes that this side could write are read, and only then are the slots written.
pub fn read_page(who: Who, bytes: &[u8], slots: &mut [MessageKey; 512]) -> Result<Session, BadPage>
    ensures { Restoring who bytes.now slots.old slots.new result }
{
    let page = Page::open(bytes)?;
    let session = page.session();
    if !is_sound(who, &session) {
        return Err(BadPage);
    }
    page.restore(slots);
    Ok(session)
}
