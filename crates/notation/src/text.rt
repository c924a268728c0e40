// Texts as scripts and output write them: a byte that can't be seen is \xNN.
ghost use Rattle.std.specs.Prelude.{◌≡◌, ◌<◌, ◌++◌, IfOk, vec_items, OnOk, OnErr};
ghost use Rattle.std.specs.Option.{option_map, option_to_list};
ghost use Rattle.notation.specs.Escapes.{escaped, hidden, escaped_byte, hex_digit, hex_value, after, emitted, unescaped};

use crate::faults::Fault;
use std::alloc::Global;

// Where the reading of an escape stands; `Bad` is a state too, since in the definition a bad escape is read on to the end.
#[derive(Clone, Copy, Debug, PartialEq, Eq)]
pub enum Escape {
    // outside an escape
    Plain,
    // behind a backslash
    Slash,
    // behind \x
    Hex,
    // behind its first digit, of this value
    Digit(u8),
    // no escape can go on so
    Bad,
}

// The digit for a number below 16.
fn hex_digit(n: u8) -> u8
    requires { n < 16 }
    ensures { result ≡ hex_digit n }
{
    if n < 10 { b'0' + n } else { b'a' + (n - 10) }
}

// The value of a hexadecimal digit.
fn hex_value(b: u8) -> Option<u8>
    ensures { result ≡ hex_value b }
{
    Some(char::from(b).to_digit(16)? as u8)
}

// Is a byte written as an escape: one that can't be seen, or a backslash.
fn is_hidden(b: u8) -> bool
    ensures { result ≡ hidden b }
{
    b.is_ascii_control() || b == b'\\'
}

// Appends a part of what is written, whole or not at all: where memory is wanted, no line ends in its midst.
pub fn put(out: &mut Vec<u8>, part: &str) -> Result<(), Fault>
    ensures done { OnOk result (out.new.items ≡ out.old.items ++ part.now) }
    ensures whole { OnErr result (out.new.items ≡ out.old.items) }
{
    out.extend_from_slice(part.as_bytes())?;
    Ok(())
}

// One byte of a text, as output writes it; an escape by hand, since `write!` takes it through a formatter, digit by digit.
fn put_byte(out: &mut Vec<u8>, b: u8) -> Result<(), Fault>
    ensures { OnOk result (out.new.items ≡ out.old.items ++ escaped_byte b) }
{
    if is_hidden(b) {
        out.extend_from_slice(&[b'\\', b'x', hex_digit(b / 16), hex_digit(b % 16)])?;
    } else {
        out.push(b)?;
    }
    Ok(())
}

// Appends a text, as output writes it; byte by byte, since there may be no memory for any of them.
pub fn put_text(out: &mut Vec<u8>, text: &[u8]) -> Result<(), Fault>
    ensures { OnOk result (out.new.items ≡ out.old.items ++ escaped text.now) }
{
    for b in text {
        put_byte(out, *b)?;
    }
    Ok(())
}

// Where the reading of an escape stands after one more byte, and what that byte adds to the text.
// By cases, as the definitions have it, and both at once: a byte is then told apart once.
fn after_byte(escape: Escape, b: u8) -> (Escape, Option<u8>)
    ensures escape { result.0 ≡ after escape b }
    ensures text { option_to_list result.1 ≡ emitted escape b }
{
    match escape {
        Escape::Plain if b == b'\\' => (Escape::Slash, None),
        Escape::Plain => (Escape::Plain, Some(b)),
        Escape::Slash if b == b'x' => (Escape::Hex, None),
        Escape::Hex => (hex_value(b).map_or(Escape::Bad, |d| Escape::Digit(d)), None),
        Escape::Digit(h) => match hex_value(b) {
            Some(d) => (Escape::Plain, Some(h.wrapping_mul(16).wrapping_add(d))),
            None => (Escape::Bad, None),
        },
        Escape::Slash | Escape::Bad => (Escape::Bad, None),
    }
}

// Reads a text as a script writes it; none where an escape is bad or cut short.
pub fn unescape(heap: Global, raw: &[u8]) -> Result<Option<Vec<u8>>, Fault>
    ensures { IfOk result (λ o. option_map vec_items o ≡ unescaped raw.now) }
{
    let mut escape = Escape::Plain;
    let mut text = Vec::new(heap);
    for b in raw {
        let (next, added) = after_byte(escape, *b);
        if let Some(x) = added {
            text.push(x)?;
        }
        escape = next;
    }
    // a text is whole only where it ends outside an escape
    match escape {
        Escape::Plain => Ok(Some(text)),
        _ => Ok(None),
    }
}
