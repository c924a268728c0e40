// Working out: which keys can be come to from all that the sides that were read out held.
ghost use Rattle.std.specs.Prelude.{◌≡◌, ℕ, ◌<◌, map, min, IfOk, vec_len, Decides};
ghost use Rattle.std.specs.List.{filter_map, reduce};
ghost use Rattle.ratchet.specs.State.{state_of};
ghost use Rattle.chain.specs.Secret.{link_of, chain_at, Knows};
ghost use Rattle.runs.specs.Stock.{key_of, stocks};
ghost use Rattle.runs.specs.Working.{works_out};
ghost use Rattle.exposure.specs.Chains.{at_or_after, start_of, Starts};
ghost use Rattle.exposure.specs.Sets.{Held};

use crate::clauses::{link_by, root_by};
use crate::readings::{put_aside, read_at};
use notation::faults::Fault;
use ratchet::sides::Side;
use ratchet::types::Mark;
use std::alloc::Global;
use std::collections::BTreeSet;

// From which place on a side held the chain of a link, if it did.
fn start_of(side: &Side, link: u64) -> Option<u32>
    ensures { result ≡ start_of link (state_of side.now) }
{
    match (side.drawn as u64).checked_sub(link)? {
        1 => Some(side.sent),
        2 => Some(side.taken),
        _ => None,
    }
}

// The earliest place of a link's chain that some side held.
fn earliest(readings: &[Side], link: u64) -> Option<u32>
    ensures { result ≡ reduce min (filter_map (λ side. start_of link (state_of side)) readings.now) }
{
    readings
        .iter()
        .filter_map(|side| start_of(side, link))
        .min()
}

// From which place on the chain of a link is known: from its first if the link is known.
fn chain_start(readings: &[Side], link: u64, known: bool) -> Option<u32>
    requires { known ≡ works_out (stocks (map state_of readings.now)) (link_of link) }
    ensures { (i : ℕ) → at_or_after result i ≡ works_out (stocks (map state_of readings.now)) (chain_at link i) }
{
    if known {
        Some(0)
    } else {
        earliest(readings, link)
    }
}

// Is a place at or after one that may not be there.
fn at_or_after(start: Option<u32>, place: u32) -> bool
    ensures { result ≡ at_or_after start place }
{
    start.is_some_and(|p| p <= place)
}

// From which place on the chain of each link is known, upward: halves give joint secrets, these with the roots give links, and links give roots.
// Its loop is that of `links_open`, whose answers it must not share.
fn chain_starts(heap: Global, readings: &[Side], count: usize) -> Result<Vec<Option<u32>>, Fault>
    ensures { IfOk result (λ v. (vec_len v ≡ count) × Starts (map state_of readings.now) v.items) }
{
    let mut starts = Vec::new(heap);
    let mut below = false;
    let mut half = read_at(readings, 0);
    for n in 0..count {
        let link = n as u64;
        let next_half = read_at(readings, link + 1);
        let root = root_by(half, below);
        let known = link_by(root, half, next_half);
        let start = chain_start(readings, link, known);
        starts.push(start)?;
        below = known;
        half = next_half;
    }
    Ok(starts)
}

// The sides that were read, from which place on the chain of each link is known, and which keys were held themselves.
// Its frame is that of `Rule`, and its facts are others: a type for both would be made of two anyway.
#[derive(Drop)]
pub struct Workings<'a> {
    pub readings: &'a [Side],
    pub starts: Vec<Option<u32>>,
    pub keys: BTreeSet<Mark>,
    ghost chain_starts: { Starts (map state_of readings.now) starts.items },
    ghost keys_held: { Held (map state_of readings.now) keys.keys },
}

impl<'a> Workings<'a> {
    // The first `count` links.
    pub fn new(heap: Global, readings: &'a [Side], count: usize) -> Result<Workings<'a>, Fault>
        ensures { IfOk result (λ workings. (workings.readings.now ≡ readings.now) × (vec_len workings.starts ≡ count)) }
    {
        let starts = chain_starts(heap, readings, count)?;
        let keys = put_aside(heap, readings)?;
        Ok(Workings {
            readings,
            starts,
            keys,
        })
    }

    // Can the key of a message be worked out: its chain is known from its place or from one before, or the key itself was held.
    pub fn known(&self, mark: Mark) -> bool
        requires { mark.link < vec_len self.now.starts }
        ensures value { result ≡ works_out (stocks (map state_of self.now.readings.now)) (key_of mark) }
        ensures decides { Decides result (Knows (stocks (map state_of self.now.readings.now)) (key_of mark)) }
    {
        let start = self.starts[mark.link as usize];
        at_or_after(start, mark.place) || self.keys.contains(&mark)
    }
}
