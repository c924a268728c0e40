// Drawing the next key for a public half that came.
ghost use Rattle.keybox.specs.Renewal.{Renewal};

use crate::boxes::KeyBox;
use crate::errors::KeyError;
use chain::{JointSecret, PublicHalf};

// Draws a key and makes what it gives with a public half; the key is not yet in force. If that half is not taken, the key is forgotten.
pub fn renew<B: KeyBox>(
    own: &mut B,
    theirs: &PublicHalf,
) -> Result<(PublicHalf, JointSecret), KeyError>
    ensures { Renewal B.KeyBox.keys B.KeyBox.scheme own.old own.new theirs.now.0 result }
{
    let half = own.draw().ok_or(KeyError::NoKey)?;
    let Some(joint) = own.joint_fresh(theirs) else {
        own.forget();
        return Err(KeyError::NotTaken);
    };
    Ok((half, joint))
}
