// Numbers as scripts write them.
ghost use Rattle.std.specs.Prelude.{◌≡◌, Some};
ghost use Rattle.notation.specs.Decimals.{digit_after, number_of};

// A number with one more digit behind it.
fn with_digit(n: u32, b: u8) -> Option<u32>
    ensures { result ≡ digit_after (Some n) b }
{
    n.checked_mul(10)?.checked_add(char::from(b).to_digit(10)?)
}

// A number of one decimal digit or more, at most 4,294,967,295; no `FromStr`, since it stands among the bytes of a line.
pub fn parse_number(digits: &[u8]) -> Option<u32>
    ensures { result ≡ number_of digits.now }
{
    if digits.is_empty() {
        return None;
    }
    digits.iter().fold(Some(0u32), |n, b| with_digit(n?, *b))
}
