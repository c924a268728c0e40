// Overwriting of what was secret.
//
// A compiler leaves out writes that nothing reads. So one place of what was overwritten is read back, which place the
// compiler cannot know, and it is worked into a result. That is right only if it is what was written there.
ghost use Rattle.std.specs.Prelude.{◌≡◌, ◌<◌, length, replicate};

// Overwrites each place with one value, and answers what stands at one of them.
// It has a `requires`: our own crates call it, on arrays that are never empty.
pub fn wipe<T: Copy>(items: &mut [T], blank: T, place: usize) -> T
    requires { 0 < length items.old }
    ensures written { items.new ≡ replicate (length items.old) blank }
    ensures read { result ≡ blank }
{
    // A loop: `fill` asks for a `clone` that can't fail, of which `Copy` says nothing.
    for item in items.iter_mut() {
        *item = blank;
    }
    items[place % items.len()]
}

// Works a zero that was read back into a result, which stays as it is.
// The result has a byte for it: what is worked into nothing is read by nobody, and then nothing is overwritten.
pub fn work_into_first(zero: u8, res: &mut [u8])
    requires { (zero ≡ 0) × (0 < length res.old) }
    ensures { res.new ≡ res.old }
{
    if let Some(first) = res.first_mut() {
        *first ^= zero;
    }
}

// The same for a result that may have no byte: then the zero is read by nobody, and what should be gone may stay.
pub fn work_in(zero: u8, res: &mut [u8])
    requires { zero ≡ 0 }
    ensures { res.new ≡ res.old }
{
    if !res.is_empty() {
        work_into_first(zero, res);
    }
}
