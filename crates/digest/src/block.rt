// The compression of one block: its words, their schedule sixteen at a time, and the rounds.
ghost use Rattle.std.specs.Prelude.{◌≡◌, ℕ, ◌+◌, ◌*◌, ◌/◌, ◌<◌, ◌≤◌, List, [], ◌∷◌, ◌++◌, length, drop};
ghost use Rattle.digest.specs.Sha256.{round, rounds, schedule, next_word, parsed, sums, compressed, absorbed, bytes, word};
ghost use Rattle.digest.specs.Work.{Stands};

use crate::words::*;
use octets::{part_at, put};
use std::array;

// The working variables a to h, and the next sixteen words of the schedule.
#[derive(Clone, Copy)]
pub struct Work {
    vars: [u32; 8],
    window: [u32; 16],
}

// One round on the working variables a to h, with its constant and its word of the schedule.
fn one_round(s: [u32; 8], k: u32, w: u32) -> [u32; 8]
    ensures { result ≡ round s k w }
{
    let [a, b, c, d, e, f, g, h] = s;
    let t1 = h
        .wrapping_add(big_sigma1(e))
        .wrapping_add(choice(e, f, g))
        .wrapping_add(k)
        .wrapping_add(w);
    let t2 = big_sigma0(a).wrapping_add(majority(a, b, c));
    [t1.wrapping_add(t2), a, b, c, d.wrapping_add(t1), e, f, g]
}

// The word of the schedule behind sixteen.
fn following(w: [u32; 16]) -> u32
    ensures { result ≡ next_word w }
{
    small_sigma1(w[14])
        .wrapping_add(w[9])
        .wrapping_add(small_sigma0(w[1]))
        .wrapping_add(w[0])
}

// The window of the schedule, moved on by one word.
fn slide(w: [u32; 16]) -> [u32; 16]
    ensures { result ≡ drop 1 w ++ next_word w ∷ [] }
{
    let next = following(w);
    let [_, b, c, d, e, f, g, h, i, j, k, l, m, n, o, p] = w;
    [b, c, d, e, f, g, h, i, j, k, l, m, n, o, p, next]
}

// One round, and the window moved on.
fn turn(x: Work, t: usize) -> Work
    requires { t < 48 }
    ensures { (h m : List ℕ) → length m ≡ 16 → Stands h m t x → Stands h m (t + 1) result }
{
    let vars = one_round(x.vars, constant(t), x.window[0]);
    let window = slide(x.window);
    Work { vars, window }
}

// Sixteen rounds, and the window moved on by as many words.
// Written out: as a fold over the rounds SHA-256 came to 0.52 of OpenSSL's speed, and so to 0.90.
fn sixteen_turns(x0: Work, t: usize) -> Work
    requires { t + 16 ≤ 48 }
    ensures { (h m : List ℕ) → length m ≡ 16 → Stands h m t x0 → Stands h m (t + 16) result }
{
    let x1 = turn(x0, t);
    let x2 = turn(x1, t + 1);
    let x3 = turn(x2, t + 2);
    let x4 = turn(x3, t + 3);
    let x5 = turn(x4, t + 4);
    let x6 = turn(x5, t + 5);
    let x7 = turn(x6, t + 6);
    let x8 = turn(x7, t + 7);
    let x9 = turn(x8, t + 8);
    let x10 = turn(x9, t + 9);
    let x11 = turn(x10, t + 10);
    let x12 = turn(x11, t + 11);
    let x13 = turn(x12, t + 12);
    let x14 = turn(x13, t + 13);
    let x15 = turn(x14, t + 14);
    turn(x15, t + 15)
}

// The last sixteen rounds, on the words of the window.
// Written out: as a loop over the words SHA-256 came to 0.81 of OpenSSL's speed, and so to 0.90.
fn last_rounds(x: Work) -> [u32; 8]
    ensures { (h m : List ℕ) → length m ≡ 16 → Stands h m 48 x → result ≡ rounds h (schedule m 48) 64 }
{
    let w = x.window;
    let s0 = one_round(x.vars, constant(48), w[0]);
    let s1 = one_round(s0, constant(49), w[1]);
    let s2 = one_round(s1, constant(50), w[2]);
    let s3 = one_round(s2, constant(51), w[3]);
    let s4 = one_round(s3, constant(52), w[4]);
    let s5 = one_round(s4, constant(53), w[5]);
    let s6 = one_round(s5, constant(54), w[6]);
    let s7 = one_round(s6, constant(55), w[7]);
    let s8 = one_round(s7, constant(56), w[8]);
    let s9 = one_round(s8, constant(57), w[9]);
    let s10 = one_round(s9, constant(58), w[10]);
    let s11 = one_round(s10, constant(59), w[11]);
    let s12 = one_round(s11, constant(60), w[12]);
    let s13 = one_round(s12, constant(61), w[13]);
    let s14 = one_round(s13, constant(62), w[14]);
    one_round(s14, constant(63), w[15])
}

// A word of a block, the high byte first. Who reads words says in which order of bytes, so each crate has such a line.
fn word_at(block: &[u8; 64], i: usize) -> u32
    requires { i < 16 }
    ensures { result ≡ word block.now i }
{
    u32::from_be_bytes(part_at(block, 4 * i))
}

// The sixteen words of a block.
fn load(block: &[u8; 64]) -> [u32; 16]
    ensures { result ≡ parsed block.now 16 }
{
    array::from_fn(|i| word_at(block, i))
}

// Two hash values added word by word.
fn add_words(x: [u32; 8], y: [u32; 8]) -> [u32; 8]
    ensures { result ≡ sums x y }
{
    array::from_fn(|i| x[i].wrapping_add(y[i]))
}

// Takes one more block into the hash value.
pub fn compress(value: &mut [u32; 8], block: &[u8; 64])
    ensures { value.new ≡ compressed value.old block.now }
{
    let before = *value;
    let mut x = Work {
        vars: before,
        window: load(block),
    };
    // A loop: as a fold SHA-256 came to 0.85 of OpenSSL's speed, as three calls to 0.78, and so to 0.90.
    for q in 0..3usize {
        let y = sixteen_turns(x, 16 * q);
        x = y;
    }
    let after = add_words(before, last_rounds(x));
    *value = after;
}

// Takes all whole blocks of a message into the hash value, and answers what stands behind them.
pub fn absorb<'a>(value: &mut [u32; 8], message: &'a [u8]) -> &'a [u8]
    ensures value { value.new ≡ absorbed value.old message.now (length message.now / 64) }
    ensures behind { result.now ≡ drop (64 * (length message.now / 64)) message.now }
{
    let (blocks, behind) = message.as_chunks::<64>();
    for block in blocks {
        compress(value, block);
    }
    behind
}

// Writes words as bytes, the high byte first. The stream's are written low byte first, and a parameter for the order would be no plainer.
// By number, since of what is written through chunks_mut a proof learns nothing.
pub fn write_words(words: &[u32], out: &mut [u8])
    requires { length out.old ≡ 4 * length words.now }
    ensures { out.new ≡ bytes words.now }
{
    for (i, word) in words.iter().enumerate() {
        put(out, 4 * i, &word.to_be_bytes());
    }
}
