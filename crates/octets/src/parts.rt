// Parts of lent memory, written and read.
ghost use Rattle.std.specs.Prelude.{◌≡◌, ◌+◌, ◌≤◌, ◌++◌, length, take, drop};

// Copies a part into lent memory, from a place on.
// It has a `requires`, as the next one: our own crates call them, in inner loops, where a refusal could not stand.
pub fn put<T: Copy>(items: &mut [T], at: usize, part: &[T])
    requires { at + length part.now ≤ length items.old }
    ensures { items.new ≡ take at items.old ++ (part.now ++ drop (at + length part.now) items.old) }
{
    items[at..at + part.len()].copy_from_slice(part);
}

// The bytes that stand from a place on.
pub fn part_at<const N: usize>(bytes: &[u8], at: usize) -> [u8; N]
    requires { at + N ≤ length bytes.now }
    ensures { result ≡ take N (drop at bytes.now) }
{
    let mut part = [0; N];
    part.copy_from_slice(&bytes[at..at + N]);
    part
}
