// One side with its file and its history, and the order of what a step does outside its memory: the page first.
ghost use Rattle.std.specs.Prelude.{◌≡◌};

use crate::types::When;
use ratchet::sides::Side;
use ratchet::types::Message;
use std::collections::BTreeMap;

#[derive(Drop)]
pub struct Device {
    // the side, in memory
    pub side: Side,
    // the side, as its file has it
    pub page: Side,
    // how many pages it has written
    pub writes: u32,
    // the stops planned and still to come, by the numbers of their writes
    pub stops: BTreeMap<u32, When>,
    // the messages sealed with their key, those that left, those that were opened, and those whose text was handed out;
    // each a list in the order of the steps, as the laws of a run have it
    pub sealed: Vec<Message>,
    pub left: Vec<Message>,
    pub opened: Vec<Message>,
    pub handed: Vec<Message>,
    // between steps the side is what its file says
    ghost same: { side ≡ page },
}
