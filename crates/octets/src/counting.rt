// Bytes that go up by a step, as the examples of standards are given.
ghost use Rattle.std.specs.Prelude.{◌≡◌, ◌+◌, ◌*◌, ◌%◌, ◌^◌, map};
ghost use Rattle.std.specs.List.{range_with_len};

use std::array;

// The byte at a place.
fn counted(first: u8, step: u8, i: usize) -> u8
    ensures { result ≡ (first + step * i) % 2 ^ 8 }
{
    first.wrapping_add(step.wrapping_mul((i % 256) as u8))
}

// Bytes from a first one on, each by a step above the one before it.
pub fn count_up<const N: usize>(first: u8, step: u8) -> [u8; N]
    ensures { result ≡ map (λ i. (first + step * i) % 2 ^ 8) (range_with_len 0 N) }
{
    array::from_fn(|i| counted(first, step, i))
}
