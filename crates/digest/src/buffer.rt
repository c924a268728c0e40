// Writes to lent bytes.
ghost use Rattle.std.specs.Prelude.{◌≡◌, ◌-◌, ◌<◌, ◌∷◌, ◌++◌, length, take, replicate};
ghost use Rattle.digest.specs.Hmac.{xored};
ghost use Rattle.digest.specs.Sha256.{length_bytes};

use octets::put;

// Writes a one bit behind the first bytes of a block, and zeros to its end.
pub fn mark(block: &mut [u8; 64], at: usize)
    requires { at < 64 }
    ensures { block.new ≡ take at block.old ++ (0x80 ∷ replicate (63 - at) 0) }
{
    block[at] = 0x80;
    block[at + 1..64].fill(0);
}

// Writes a number of 64 bits into the last eight bytes of a block, the high byte first.
pub fn write_length(block: &mut [u8; 64], bits: u64)
    ensures { block.new ≡ take 56 block.old ++ length_bytes bits }
{
    put(block, 56, &bits.to_be_bytes());
}

// Takes each byte exclusive-or another, which is one for all of them; the stream's is another at each place.
pub fn xor_each(bytes: &mut [u8], pad: u8)
    ensures { bytes.new ≡ xored pad bytes.old }
{
    for byte in bytes.iter_mut() {
        *byte ^= pad;
    }
}
