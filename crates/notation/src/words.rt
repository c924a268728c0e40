// Words of a line: whether it is one, begins with one, and where a space is.
ghost use Rattle.std.specs.Prelude.{◌≡◌, ◌≤◌, not, length, take, drop, IfSome};
ghost use Rattle.std.specs.Option.{option_map};
ghost use Rattle.notation.specs.Decimals.{number_of};
ghost use Rattle.notation.specs.Words.{starts, space_at, visible, solid};

use crate::numbers::parse_number;

// Does this line begin with that word.
pub fn begins(line: &[u8], word: &[u8]) -> bool
    ensures { result ≡ starts line.now word.now }
{
    line.starts_with(word)
}

// The place of the first space, or the length where there is none; a place, since both parts of the line are asked for.
pub fn space(line: &[u8]) -> usize
    ensures value { result ≡ space_at line.now }
    ensures bound { result ≤ length line.now }
{
    line.iter().position(|b| *b == b' ').unwrap_or(line.len())
}

// Is a byte neither a space nor a tab nor a carriage return.
fn is_visible(b: u8) -> bool
    ensures { result ≡ visible b }
{
    b != b' ' && b != b'\t' && b != b'\r'
}

// Does this line hold nothing but spaces, tabs and carriage returns.
pub fn is_blank(line: &[u8]) -> bool
    ensures { result ≡ not (solid line.now) }
{
    !line.iter().any(|b| is_visible(*b))
}

// The number that a line is up to its first space, and what stands from there on.
pub fn leading_number(line: &[u8]) -> Option<(u32, &[u8])>
    ensures number { option_map (λ t. t.0) result ≡ number_of (take (space_at line.now) line.now) }
    ensures rest { IfSome result (λ t. t.1.now ≡ drop (space_at line.now) line.now) }
{
    let (digits, rest) = line.split_at(space(line));
    Some((parse_number(digits)?, rest))
}
