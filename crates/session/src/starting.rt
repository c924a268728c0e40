// Beginning a session: each side from the first secret, and the first with the public half of the second's key.
ghost use Rattle.std.specs.Prelude.{Some};
ghost use Rattle.exchange.specs.Exchanges.{begin_first, begin_second};
ghost use Rattle.session.specs.Ours.{ours};
ghost use Rattle.session.specs.Starts.{Starting};

use crate::sessions::Session;
use chain::{ChainKey, PublicHalf, RootKey, link};
use keybox::{KeyBox, KeyError, renew};
use ratchet::steps::{first_side, second_side};

// Begins as the second side: draws key 0.
pub fn begin_second<B: KeyBox>(secret: RootKey, own: &mut B) -> Result<Session, KeyError>
    ensures { Starting B.KeyBox.keys (λ draw. Some (begin_second (ours B.KeyBox.scheme) draw secret.0)) own.old own.new result }
{
    let half = own.draw().ok_or(KeyError::NoKey)?;
    own.keep();
    Ok(Session {
        side: second_side(),
        root: secret,
        sending: ChainKey([0; 32]),
        taking: ChainKey([0; 32]),
        half,
    })
}

// Begins as the first side: draws key 1, and makes link 0 with the public half of key 0.
pub fn begin_first<B: KeyBox>(
    secret: RootKey,
    theirs: &PublicHalf,
    own: &mut B,
) -> Result<Session, KeyError>
    ensures { Starting B.KeyBox.keys (λ draw. begin_first (ours B.KeyBox.scheme) draw theirs.now.0 secret.0) own.old own.new result }
{
    let (half, joint) = renew(own, theirs)?;
    own.keep();
    let (root, sending) = link(&secret, &joint);
    Ok(Session {
        side: first_side(),
        root,
        sending,
        taking: ChainKey([0; 32]),
        half,
    })
}
