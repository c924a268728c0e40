// The slots that keys are put aside in.
ghost use Rattle.std.specs.Prelude.{◌≡◌, replicate};
ghost use Rattle.exchange.specs.Held.{blank};

use seal::MessageKey;

// A slot that holds no key: a const, so that it can be repeated, since keys are not Copy.
const NONE: MessageKey = MessageKey([0; 32]);

// The slots of a session that begins: each is zero.
pub fn no_keys() -> [MessageKey; 512]
    ensures { result ≡ replicate 512 (record { 0 = blank }) }
{
    [NONE; 512]
}
