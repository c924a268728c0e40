// Bytes held against one another.
ghost use Rattle.std.specs.Prelude.{◌≡◌, Decides};

// Whether two byte strings are the same, in the same time wherever they differ.
pub fn same(a: &[u8], b: &[u8]) -> bool
    ensures { Decides result (a.now ≡ b.now) }
{
    let differences = a.iter().zip(b).fold(0, |so_far, (x, y)| so_far | (x ^ y));
    a.len() == b.len() && differences == 0
}
