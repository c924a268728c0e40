// The calls that the benchmark times, for C to link: names, lengths and answers are those of its C program.
#![tactic(auto)]

ghost use Rattle.std.specs.Prelude.{◌≡◌, ◌↔◌, true, false, length};
ghost use Rattle.digest.specs.Sha256.{sha_256};
ghost use Rattle.digest.specs.Hmac.{hmac_sha_256};

use digest::{hmac, sha256};

// Copies a digest to a place with room for it; false where there is none, for C to read. The three clauses stand again at each name of C.
fn hand_out(digest: [u8; 32], out: &mut [u8]) -> bool
    ensures room { (result ≡ true) ↔ (length out.old ≡ 32) }
    ensures done { result ≡ true → out.new ≡ digest }
    ensures refused { result ≡ false → out.new ≡ out.old }
{
    if out.len() != 32 {
        return false;
    }
    out.copy_from_slice(&digest);
    true
}

// C reads whether it was written.
#[unsafe(no_mangle)]
pub extern "C" fn digest_sha256(message: &[u8], out: &mut [u8]) -> bool
    ensures room { (result ≡ true) ↔ (length out.old ≡ 32) }
    ensures done { result ≡ true → out.new ≡ sha_256 message.now }
    ensures refused { result ≡ false → out.new ≡ out.old }
{
    hand_out(sha256(message), out)
}

// C reads whether it was written.
#[unsafe(no_mangle)]
pub extern "C" fn digest_hmac(key: &[u8], message: &[u8], out: &mut [u8]) -> bool
    ensures room { (result ≡ true) ↔ (length out.old ≡ 32) }
    ensures done { result ≡ true → out.new ≡ hmac_sha_256 key.now message.now }
    ensures refused { result ≡ false → out.new ≡ out.old }
{
    hand_out(hmac(key, message), out)
}
