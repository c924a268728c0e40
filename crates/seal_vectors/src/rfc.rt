// The ChaCha20 values of RFC 8439: sections 2.3.2 and 2.4.2, appendices A.1 and A.2.
// Each is a call and no row of a table, since their texts have other lengths.
ghost use Rattle.std.specs.Prelude.{◌<◌};

use crate::sealed::hex;
use octets::count_up;
use seal::{MessageKey, Nonce, TooLong, stream};
use std::io;

const SCATTERED: [u8; 32] = [
    0x1c, 0x92, 0x40, 0xa5, 0xeb, 0x55, 0xd3, 0x8a, 0xf3, 0x33, 0x88, 0x86, 0x04, 0xf6, 0xb5, 0xf0,
    0x47, 0x39, 0x17, 0xc1, 0x40, 0x2b, 0x80, 0x09, 0x9d, 0xca, 0x5c, 0xbc, 0x20, 0x70, 0x75, 0xc0,
];

// Zeros but for one byte.
fn zeros_with<const N: usize>(at: usize, byte: u8) -> [u8; N]
    requires { at < N }
{
    let mut bytes = [0; N];
    bytes[at] = byte;
    bytes
}

fn show(
    rt: &HostRuntime,
    name: &str,
    key: &MessageKey,
    nonce: &Nonce,
    counter: u32,
    text: &mut [u8],
) -> io::Result<()> {
    print!(rt; "{name} ")?;
    match stream(key, nonce, counter, text) {
        Ok(()) => hex(rt, text),
        Err(TooLong) => println!(rt; "too long"),
    }
}

fn blocks(rt: &HostRuntime) -> io::Result<()> {
    let zero = MessageKey([0; 32]);
    let none = Nonce([0; 12]);
    show(rt, "A.1.1", &zero, &none, 0, &mut [0; 64])?;
    show(rt, "A.1.2", &zero, &none, 1, &mut [0; 64])?;
    show(
        rt,
        "A.1.3",
        &MessageKey(zeros_with(31, 1)),
        &none,
        1,
        &mut [0; 64],
    )?;
    show(
        rt,
        "A.1.4",
        &MessageKey(zeros_with(1, 0xff)),
        &none,
        2,
        &mut [0; 64],
    )?;
    show(
        rt,
        "A.1.5",
        &zero,
        &Nonce(zeros_with(11, 2)),
        0,
        &mut [0; 64],
    )
}

fn texts(rt: &HostRuntime) -> io::Result<()> {
    let mut ietf =
        *b"Any submission to the IETF intended by the Contributor for publication as all or part of an IETF Internet-Draft or RFC and any statement made within the context of an IETF activity is considered an \"IETF Contribution\". Such statements include oral statements in IETF sessions, as well as written and electronic communications made at any time or place, which are addressed to";
    let mut toves =
        *b"'Twas brillig, and the slithy toves\nDid gyre and gimble in the wabe:\nAll mimsy were the borogoves,\nAnd the mome raths outgrabe.";
    show(
        rt,
        "A.2.1",
        &MessageKey([0; 32]),
        &Nonce([0; 12]),
        0,
        &mut [0; 64],
    )?;
    show(
        rt,
        "A.2.2",
        &MessageKey(zeros_with(31, 1)),
        &Nonce(zeros_with(11, 2)),
        1,
        &mut ietf,
    )?;
    show(
        rt,
        "A.2.3",
        &MessageKey(SCATTERED),
        &Nonce(zeros_with(11, 2)),
        42,
        &mut toves,
    )
}

pub fn run(rt: &HostRuntime) -> io::Result<()> {
    let key = MessageKey(count_up(0, 1));
    let mut sunscreen =
        *b"Ladies and Gentlemen of the class of '99: If I could offer you only one tip for the future, sunscreen would be it.";
    show(
        rt,
        "2.3.2",
        &key,
        &Nonce([0, 0, 0, 9, 0, 0, 0, 0x4a, 0, 0, 0, 0]),
        1,
        &mut [0; 64],
    )?;
    show(
        rt,
        "2.4.2",
        &key,
        &Nonce(zeros_with(7, 0x4a)),
        1,
        &mut sunscreen,
    )?;
    blocks(rt)?;
    texts(rt)?;
    show(
        rt,
        "last counter, one block",
        &key,
        &Nonce([0; 12]),
        0xffff_ffff,
        &mut [0; 64],
    )?;
    show(
        rt,
        "last counter, a byte more",
        &key,
        &Nonce([0; 12]),
        0xffff_ffff,
        &mut [0; 65],
    )
}
