// The stream, sealing and opening as C functions, for the benchmark to link: names and numbers are those of its C program.
#![tactic(auto)]

ghost use Rattle.std.specs.Prelude.{◌≡◌, ◌≤◌, ◌≢◌, ℕ};
ghost use Rattle.seal.specs.declared.sealing.SealError.{SealError};
ghost use Rattle.seal.specs.declared.sealing.OpenError.{OpenError};
ghost use Rattle.seal.specs.Streaming.{Streamed, Uncounted};
ghost use Rattle.seal.specs.Answers.{Sealed, Unsealed, Opened, Unopened};

use seal::{MessageKey, Nonce, open, seal, stream};

// C reads the number. 0: done; 1: the text is too long, and was left as it was.
#[unsafe(no_mangle)]
pub extern "C" fn seal_bench_stream(
    key: &[u8; 32],
    nonce: &[u8; 12],
    counter: u32,
    text: &mut [u8],
) -> u32
    ensures done { result ≡ 0 → Streamed key.now nonce.now counter text.old text.new }
    ensures refused { result ≢ 0 → Uncounted counter text.old text.new }
    ensures number { result ≤ 1 }
{
    match stream(&MessageKey(*key), &Nonce(*nonce), counter, text) {
        Ok(_) => 0,
        Err(_) => 1,
    }
}

// C reads the number: how many bytes were written; 0: refused.
#[unsafe(no_mangle)]
pub extern "C" fn seal_bench_seal(
    key: &[u8; 32],
    header: &[u8],
    text: &[u8],
    out: &mut [u8],
) -> usize
    ensures done { result ≢ 0 → Sealed key.now header.now text.now out.old out.new result }
    ensures refused { result ≡ 0 → (why : SealError) × Unsealed text.now out.old out.new why }
{
    let Ok(size) = seal(&MessageKey(*key), header, text, out) else {
        return 0;
    };
    size
}

// C reads the number. 0: opened; 1: refused.
#[unsafe(no_mangle)]
pub extern "C" fn seal_bench_open(key: &[u8; 32], header: &[u8], body: &[u8], out: &mut [u8]) -> u32
    ensures done { result ≡ 0 → (size : ℕ) × Opened key.now header.now body.now out.old out.new size }
    ensures refused { result ≢ 0 → (why : OpenError) × Unopened key.now header.now body.now out.old out.new why }
    ensures number { result ≤ 1 }
{
    match open(&MessageKey(*key), header, body, out) {
        Ok(_) => 0,
        Err(_) => 1,
    }
}
