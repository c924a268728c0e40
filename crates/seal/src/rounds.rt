// The rounds of ChaCha20 on its sixteen words (RFC 8439, sections 2.1 to 2.3).
ghost use Rattle.std.specs.Prelude.{◌≡◌, ◌<◌};
ghost use Rattle.seal.specs.ChaCha20.{line, quarter_round, column_rounds, diagonal_rounds, double_rounds};

// One line of the quarter round: a += b; d ^= a; d <<<= n.
fn mix(s: &mut [u32; 16], a: usize, b: usize, d: usize, n: u32)
    requires { (a < 16) × ((b < 16) × (d < 16)) }
    ensures { s.new ≡ line s.old a b d n }
{
    s[a] = s[a].wrapping_add(s[b]);
    s[d] = (s[d] ^ s[a]).rotate_left(n);
}

fn quarter(s: &mut [u32; 16], a: usize, b: usize, c: usize, d: usize)
    requires { (a < 16) × ((b < 16) × ((c < 16) × (d < 16))) }
    ensures { s.new ≡ quarter_round s.old a b c d }
{
    mix(s, a, b, d, 16);
    mix(s, c, d, b, 12);
    mix(s, a, b, d, 8);
    mix(s, c, d, b, 7);
}

fn columns(s: &mut [u32; 16])
    ensures { s.new ≡ column_rounds s.old }
{
    quarter(s, 0, 4, 8, 12);
    quarter(s, 1, 5, 9, 13);
    quarter(s, 2, 6, 10, 14);
    quarter(s, 3, 7, 11, 15);
}

fn diagonals(s: &mut [u32; 16])
    ensures { s.new ≡ diagonal_rounds s.old }
{
    quarter(s, 0, 5, 10, 15);
    quarter(s, 1, 6, 11, 12);
    quarter(s, 2, 7, 8, 13);
    quarter(s, 3, 4, 9, 14);
}

// The twenty rounds: ten times the columns and then the diagonals.
pub(crate) fn twenty_rounds(s: &mut [u32; 16])
    ensures { s.new ≡ double_rounds 10 s.old }
{
    // A count: each turn works on what the last one left.
    for _turn in 0..10usize {
        columns(s);
        diagonals(s);
    }
}
