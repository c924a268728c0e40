// The lines of a script; the words of both sides are written out, as they are defined, and a loop would have to put them together.
ghost use Rattle.std.specs.Prelude.{◌≡◌};
ghost use Rattle.script.specs.Commands.{quiet_of, read_of, send_of, send_with, stop_either, stop_of, stop_with, deliver_of, flip_of, parsed};

use notation::numbers::parse_number;
use notation::words::{begins, is_blank, leading_number};
use runs::types::Who;
use stage::types::{Stop, When};

// What a line asks for.
#[derive(Clone, Copy, Debug, PartialEq, Eq)]
pub enum Command {
    // a blank line, or one that begins with #
    Nothing,
    // one sends the text that begins at this byte of the line; a place and no slice, since lines are defined by equal commands
    Send(Who, usize),
    // the message of this number comes, with this bit turned if one is named
    Deliver(u32, Option<u32>),
    Plan(Who, Stop),
    Read(Who),
    Show,
}

// A line that asks for nothing, or `show`.
fn quiet_line(line: &[u8]) -> Option<Command>
    ensures { result ≡ quiet_of line.now }
{
    if is_blank(line) || begins(line, b"#") {
        return Some(Command::Nothing);
    }
    (line == b"show".as_slice()).then_some(Command::Show)
}

// `read S`
fn read_line(line: &[u8]) -> Option<Command>
    ensures { result ≡ read_of line.now }
{
    if line == b"read first".as_slice() {
        return Some(Command::Read(Who::First));
    }
    (line == b"read second".as_slice()).then_some(Command::Read(Who::Second))
}

// `send S`, alone or with a space and a text behind it.
fn send_with(line: &[u8], words: &[u8], from: Who) -> Option<Command>
    ensures { result ≡ send_with line.now words.now from }
{
    let n = words.len();
    match line.strip_prefix(words)?.first() {
        None => Some(Command::Send(from, n)),
        Some(b' ') => Some(Command::Send(from, n + 1)),
        Some(_) => None,
    }
}

// `send S TEXT`
fn send_line(line: &[u8]) -> Option<Command>
    ensures { result ≡ send_of line.now }
{
    send_with(line, b"send first", Who::First).or(send_with(line, b"send second", Who::Second))
}

// `stop S before N` or `stop S after N`, by the words before the number.
fn stop_with(line: &[u8], words: &[u8], who: Who, when: When) -> Option<Command>
    ensures { result ≡ stop_with line.now words.now who when }
{
    let write = parse_number(line.strip_prefix(words)?)?;
    Some(Command::Plan(who, Stop { write, when }))
}

// The two kinds of stop of one side, by the words of each.
fn stop_either(line: &[u8], before: &[u8], after: &[u8], who: Who) -> Option<Command>
    ensures { result ≡ stop_either line.now before.now after.now who }
{
    stop_with(line, before, who, When::Before).or(stop_with(line, after, who, When::After))
}

// `stop S before N` and `stop S after N`
fn stop_line(line: &[u8]) -> Option<Command>
    ensures { result ≡ stop_of line.now }
{
    let first = stop_either(
        line,
        b"stop first before ",
        b"stop first after ",
        Who::First,
    );
    first.or(stop_either(
        line,
        b"stop second before ",
        b"stop second after ",
        Who::Second,
    ))
}

// What stands behind the message's number in a `deliver`: nothing, or ` flip B`.
fn flip_part(number: u32, rest: &[u8]) -> Option<Command>
    ensures { result ≡ flip_of number rest.now }
{
    if rest.is_empty() {
        return Some(Command::Deliver(number, None));
    }
    let bit = parse_number(rest.strip_prefix(b" flip ")?)?;
    Some(Command::Deliver(number, Some(bit)))
}

// `deliver M`, with `flip B` or without.
fn deliver_line(line: &[u8]) -> Option<Command>
    ensures { result ≡ deliver_of line.now }
{
    let (number, rest) = leading_number(line.strip_prefix(b"deliver ")?)?;
    flip_part(number, rest)
}

// Reads a line of a script; none where it is no command, and no `TryFrom`, since why it is none is not told. The kinds are tried one behind the other, and the first that fits is it.
pub fn parse(line: &[u8]) -> Option<Command>
    ensures { result ≡ parsed line.now }
{
    quiet_line(line)
        .or_else(|| read_line(line))
        .or_else(|| send_line(line))
        .or_else(|| stop_line(line))
        .or_else(|| deliver_line(line))
}
