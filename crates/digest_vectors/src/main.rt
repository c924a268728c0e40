// Prints the digests, tags and key material of the standards' own examples: a name and the bytes, a line each.
// Each example is a call and no row of a table, since their parts have other lengths.
#![tactic(auto)]

use digest::{Hasher, TooLong, hkdf, hmac, hmac_parts, sha256};
use octets::count_up;
use std::io;

const LARGE_KEY: [u8; 131] = [0xaa; 131];

fn line(rt: &HostRuntime, name: &str, bytes: &[u8]) -> io::Result<()> {
    print!(rt; "{name} ")?;
    // byte by byte, since a line in one takes memory from a heap
    for b in bytes {
        print!(rt; "{b:02x}")?;
    }
    println!(rt; "")
}

// A million times the letter a, in parts of a thousand.
fn million() -> [u8; 32] {
    let mut state = Hasher::new();
    for _ in 0..1000usize {
        state.update(&[b'a'; 1000]);
    }
    state.finish()
}

// The examples for SHA-256 of FIPS 180-4.
fn hashes(rt: &HostRuntime) -> io::Result<()> {
    line(rt, "sha256-empty", &sha256(b""))?;
    line(rt, "sha256-abc", &sha256(b"abc"))?;
    let text = b"abcdbcdecdefdefgefghfghighijhijkijkljklmklmnlmnomnopnopq";
    line(rt, "sha256-448-bits", &sha256(text))?;
    let text =
        b"abcdefghbcdefghicdefghijdefghijkefghijklfghijklmghijklmnhijklmnoijklmnopjklmnopqklmnopqrlmnopqrsmnopqrstnopqrstu";
    line(rt, "sha256-896-bits", &sha256(text))?;
    line(rt, "sha256-million-a", &million())
}

// The test cases 1 to 7 of RFC 4231; the tag of case 5 is cut to 16 bytes.
fn tags(rt: &HostRuntime) -> io::Result<()> {
    line(rt, "hmac-1", &hmac(&[0x0b; 20], b"Hi There"))?;
    line(
        rt,
        "hmac-2",
        &hmac(b"Jefe", b"what do ya want for nothing?"),
    )?;
    line(
        rt,
        "hmac-2-in-parts",
        &hmac_parts(b"Jefe", b"what do ya ", b"want for nothing?"),
    )?;
    line(rt, "hmac-3", &hmac(&[0xaa; 20], &[0xdd; 50]))?;
    line(rt, "hmac-4", &hmac(&count_up::<25>(1, 1), &[0xcd; 50]))?;
    let tag = hmac(&[0x0c; 20], b"Test With Truncation");
    line(rt, "hmac-5", &tag[0..16])?;
    line(
        rt,
        "hmac-6",
        &hmac(
            &LARGE_KEY,
            b"Test Using Larger Than Block-Size Key - Hash Key First",
        ),
    )?;
    let text =
        b"This is a test using a larger than block-size key and a larger than block-size data. The key needs to be hashed before being used by the HMAC algorithm.";
    line(rt, "hmac-7", &hmac(&LARGE_KEY, text))
}

// One test case of RFC 5869: the pseudorandom key and the output key material.
fn material(
    rt: &HostRuntime,
    name: &str,
    salt: &[u8],
    input: &[u8],
    info: &[u8],
    out: &mut [u8],
) -> io::Result<()> {
    rt.print(name)?;
    line(rt, "-prk", &hmac(salt, input))?;
    rt.print(name)?;
    match hkdf(salt, input, info, out) {
        Ok(()) => line(rt, "-okm", out),
        Err(TooLong) => line(rt, "-refused", &[]),
    }
}

// The test cases 1 to 3 of RFC 5869.
fn keys(rt: &HostRuntime) -> io::Result<()> {
    let salt: [u8; 13] = count_up(0, 1);
    let info: [u8; 10] = count_up(0xf0, 1);
    let mut out = [0u8; 42];
    material(rt, "hkdf-1", &salt, &[0x0b; 22], &info, &mut out)?;
    let input: [u8; 80] = count_up(0, 1);
    let salt: [u8; 80] = count_up(0x60, 1);
    let info: [u8; 80] = count_up(0xb0, 1);
    let mut out = [0u8; 82];
    material(rt, "hkdf-2", &salt, &input, &info, &mut out)?;
    let mut out = [0u8; 42];
    material(rt, "hkdf-3", &[], &[0x0b; 22], &[], &mut out)
}

fn main(rt: HostRuntime) -> io::Result<()> {
    hashes(&rt)?;
    tags(&rt)?;
    keys(&rt)
}
