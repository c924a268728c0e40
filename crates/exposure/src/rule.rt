// The rule: which links and which keys lie open, given the sides that were read out.
ghost use Rattle.std.specs.Prelude.{◌≡◌, ◌<◌, map, IfOk, vec_len};
ghost use Rattle.ratchet.specs.State.{state_of};
ghost use Rattle.runs.specs.Rule.{any_read, sees as seesKey, exposed as isExposed};
ghost use Rattle.exposure.specs.Chains.{reaches};
ghost use Rattle.exposure.specs.Links.{links_to};
ghost use Rattle.exposure.specs.Sets.{Aside};

use crate::clauses::{key_by, link_by, root_by};
use crate::readings::{put_aside, read_at};
use notation::faults::Fault;
use ratchet::sides::Side;
use ratchet::types::Mark;
use std::alloc::Global;
use std::collections::BTreeSet;

// Does one reading open the key of a message by its link's chain.
fn sees(side: &Side, mark: Mark) -> bool
    ensures { result ≡ reaches mark.link mark.place (state_of side.now) }
{
    let drawn = side.drawn as u64;
    let link = mark.link as u64;
    // the sender's, that had sent this place or fewer
    drawn == link + 1 && side.sent <= mark.place
        // the taker's, whose next place was this or before
        || drawn == link + 2 && side.taken <= mark.place
}

// Was a side read that opens the key of a message by its link's chain.
fn seen(readings: &[Side], mark: Mark) -> bool
    ensures { result ≡ any_read (reaches mark.link mark.place) (map state_of readings.now) }
{
    readings.iter().any(|side| sees(side, mark))
}

// Which links lie open, upward: a table by link, since each has an entry, and a count, since each entry comes from the one below it.
// Not one function with `chain_starts`: that one goes by what was held, and the two words of a row are to be come to apart.
fn links_open(heap: Global, readings: &[Side], count: usize) -> Result<Vec<bool>, Fault>
    ensures { IfOk result (λ v. v.items ≡ links_to (map state_of readings.now) count) }
{
    let mut links = Vec::new(heap);
    let mut below = false;
    let mut drawn = read_at(readings, 0);
    for n in 0..count {
        let drawn_next = read_at(readings, n as u64 + 1);
        let root = root_by(drawn, below);
        let link = link_by(root, drawn, drawn_next);
        links.push(link)?;
        below = link;
        drawn = drawn_next;
    }
    Ok(links)
}

// The sides that were read, which links lie open, and which keys were put aside.
#[derive(Drop)]
pub struct Rule<'a> {
    pub readings: &'a [Side],
    pub links: Vec<bool>,
    pub aside: BTreeSet<Mark>,
    ghost links_open: { links.items ≡ links_to (map state_of readings.now) (vec_len links) },
    ghost put_aside: { Aside (map state_of readings.now) aside.keys },
}

impl<'a> Rule<'a> {
    // The first `count` links.
    pub fn new(heap: Global, readings: &'a [Side], count: usize) -> Result<Rule<'a>, Fault>
        ensures { IfOk result (λ rule. (rule.readings.now ≡ readings.now) × (vec_len rule.links ≡ count)) }
    {
        let links = links_open(heap, readings, count)?;
        let aside = put_aside(heap, readings)?;
        Ok(Rule {
            readings,
            links,
            aside,
        })
    }

    // Was a side read that opens the key of a message: by its link's chain, or since it had it put aside.
    fn key_seen(&self, mark: Mark) -> bool
        ensures { result ≡ any_read (seesKey mark.link mark.place) (map state_of self.now.readings.now) }
    {
        key_by(seen(self.readings, mark), self.aside.contains(&mark))
    }

    // Does the key of a message lie open: its link does, or a side was read that opens it.
    pub fn exposed(&self, mark: Mark) -> bool
        requires { mark.link < vec_len self.now.links }
        ensures { result ≡ isExposed (map state_of self.now.readings.now) mark.link mark.place }
    {
        self.links[mark.link as usize] || self.key_seen(mark)
    }
}
