// Texts sealed and opened, and what is no sealed text refused.
// Key, header and body are apart, since a forgery changes one of them and leaves the others.
use octets::count_up;
use seal::{MessageKey, OpenError, SealError, open, seal};
use std::io;

pub fn hex(rt: &HostRuntime, bytes: &[u8]) -> io::Result<()> {
    // byte by byte, since a line in one takes memory from a heap
    for b in bytes {
        print!(rt; "{b:02x}")?;
    }
    println!(rt; "")
}

fn untouched(output: &[u8]) -> bool {
    output.iter().all(|b| *b == 170)
}

fn show_refusal(rt: &HostRuntime, what: &str, why: &str, output: &[u8]) -> io::Result<()> {
    let left = if untouched(output) {
        "untouched"
    } else {
        "changed"
    };
    println!(rt; "{what}: {why}, output {left}")
}

// Opens what is to be refused. The words of an error stand here and below, where alone they are printed.
fn refuse_open(
    rt: &HostRuntime,
    what: &str,
    key: &MessageKey,
    header: &[u8],
    body: &[u8],
) -> io::Result<()> {
    let mut output = [170; 1024];
    let why = match open(key, header, body, &mut output) {
        Ok(_) => "opened",
        Err(OpenError::TooLong) => "too long",
        Err(OpenError::NoRoom) => "no room",
        Err(OpenError::Forged) => "forged",
    };
    show_refusal(rt, what, why, &output)
}

// Seals into an output that is one byte short.
fn refuse_seal(
    rt: &HostRuntime,
    key: &MessageKey,
    header: &[u8],
    text: &[u8],
    output: &mut [u8],
) -> io::Result<()> {
    if output.len() < 15 || output.len() - 15 < text.len() {
        return println!(rt; "an output of another size");
    }
    let room = text.len() + 15;
    let why = match seal(key, header, text, &mut output[0..room]) {
        Ok(_) => "sealed",
        Err(SealError::TooLong) => "too long",
        Err(SealError::NoRoom) => "no room",
    };
    show_refusal(rt, "output one short", why, output)
}

// What is sealed with a bit of its tag and one of its text changed, under another header and another key.
fn forgeries(
    rt: &HostRuntime,
    key: &MessageKey,
    header: &mut [u8; 47],
    body: &mut [u8],
    other: &MessageKey,
) -> io::Result<()> {
    let size = body.len();
    if size < 16 {
        return println!(rt; "a body of another size");
    }
    refuse_open(rt, "another key", other, header, body)?;
    refuse_open(rt, "cut to 15 bytes", key, header, &body[0..15])?;
    header[46] ^= 1;
    refuse_open(rt, "another header", key, header, body)?;
    header[46] ^= 1;
    body[size - 1] ^= 0x80;
    refuse_open(rt, "another tag", key, header, body)?;
    body[size - 1] ^= 0x80;
    if size > 16 {
        body[size - 17] ^= 1;
        refuse_open(rt, "another text", key, header, body)?;
    }
    Ok(())
}

// A text sealed into an output and opened into another, with all that the two hold then; how many bytes were sealed, if both were done.
fn round_trip(
    rt: &HostRuntime,
    key: &MessageKey,
    header: &[u8],
    text: &[u8],
    out: &mut [u8],
    plain: &mut [u8],
) -> io::Result<Option<usize>> {
    let size = text.len();
    let Ok(end) = seal(key, header, text, out) else {
        println!(rt; "not sealed")?;
        return Ok(None);
    };
    print!(rt; "sealed {size} ")?;
    hex(rt, out)?;
    let Ok(opened) = open(key, header, &out[0..end], plain) else {
        println!(rt; "not opened")?;
        return Ok(None);
    };
    print!(rt; "opened {opened} ")?;
    hex(rt, plain)?;
    Ok(Some(end))
}

fn case(rt: &HostRuntime, text: &[u8], n: u8) -> io::Result<()> {
    let mut header: [u8; 47] = count_up(n.wrapping_mul(29), 3);
    let key = MessageKey(count_up(n.wrapping_mul(17), 7));
    let other = MessageKey(count_up(n.wrapping_mul(17), 9));
    let mut out = [170; 1024];
    let sealed = round_trip(rt, &key, &header, text, &mut out, &mut [170; 1024])?;
    refuse_seal(rt, &key, &header, text, &mut [170; 1024])?;
    match sealed {
        Some(end) if end <= 1024 => forgeries(rt, &key, &mut header, &mut out[0..end], &other),
        _ => println!(rt; "another size"),
    }
}

pub fn run(rt: &HostRuntime) -> io::Result<()> {
    case(rt, &count_up::<0>(0, 11), 0)?;
    case(rt, &count_up::<1>(5, 11), 1)?;
    case(rt, &count_up::<63>(10, 11), 2)?;
    case(rt, &count_up::<64>(15, 11), 3)?;
    case(rt, &count_up::<65>(20, 11), 4)?;
    case(rt, &count_up::<1000>(25, 11), 5)
}
