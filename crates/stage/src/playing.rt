// The steps of a rehearsal: each is an event of the world that the player holds.
// Each says what becomes of the world and of the letters, since a script's theorems are about these.
ghost use Rattle.std.specs.Prelude.{◌≡◌, true, [], ◌∷◌, ◌++◌, map, length, IfOk, OnOk};
ghost use Rattle.ratchet.specs.State.{state_of};
ghost use Rattle.runs.specs.World.{start, step, reads, among, party, other};
ghost use Rattle.stage.specs.Plan.{Planned};
ghost use Rattle.stage.specs.Devices.{plan_of};
ghost use Rattle.stage.specs.Players.{world_of, letters_of, post_of, bit_is_there, device, SendPlayed, Delivered, Deliverable, DeliveryIs, Looked};
ghost use Rattle.stage.specs.Lending.{LendsDevice};
ghost use Rattle.std.specs.Borrow.{sem};

use crate::device::Device;
use crate::player::{Letter, Player};
use crate::types::{BadStop, NoDelivery, Sending, Stop, Taking};
use notation::faults::Fault;
use ratchet::sides::Side;
use ratchet::steps;
use ratchet::types::Message;
use runs::types::Who;
use std::alloc::Global;

// A message gets the next number; apart from `send`, for what is kept of a letter.
fn keep_letter(letters: &mut Vec<Letter>, letter: Letter) -> Result<(), Fault>
    ensures { OnOk result (map post_of letters.new.items ≡ map post_of letters.old.items ++ post_of letter ∷ []) }
{
    letters.push(letter)?;
    Ok(())
}

impl Letter {
    // Is the bit to be turned, if any, in the message.
    fn has_bit(&self, flip: Option<usize>) -> bool
        ensures { result ≡ bit_is_there flip (post_of self.now) }
    {
        flip.is_none_or(|bit| bit / 8 < self.text.len().saturating_add(63))
    }
}

// The other of the two sides.
fn other(who: Who) -> Who
    ensures { result ≡ other who }
{
    match who {
        Who::First => Who::Second,
        Who::Second => Who::First,
    }
}

impl Player {
    // The two as they begin.
    pub fn new(heap: Global) -> Player
        ensures world { world_of result ≡ start }
        ensures letters { letters_of result ≡ [] }
    {
        Player {
            first: Device::new(heap, steps::first_side()),
            second: Device::new(heap, steps::second_side()),
            readings: Vec::new(heap),
            letters: Vec::new(heap),
        }
    }

    // The device of one side, by name: the two are fields, as in the world.
    fn device(&self, who: Who) -> &Device
        ensures { result.now ≡ device who self.now }
    {
        match who {
            Who::First => &self.first,
            Who::Second => &self.second,
        }
    }

    // The device of one side, to be changed.
    fn device_mut(&mut self, who: Who) -> &mut Device
        ensures* lends { sem 𝓛 (LendsDevice self.entry who result) }
        ensures value { result.now ≡ device who self.old }
    {
        match who {
            Who::First => &mut self.first,
            Who::Second => &mut self.second,
        }
    }

    // One is read out.
    pub fn read(&mut self, who: Who) -> Result<(), Fault>
        ensures world { OnOk result (world_of self.new ≡ step (reads who) (world_of self.old)) }
        ensures letters { letters_of self.new ≡ letters_of self.old }
    {
        let side = self.device(who).side;
        self.readings.push(side)?;
        Ok(())
    }

    // One sends a text.
    pub fn send(&mut self, from: Who, text: Vec<u8>) -> Result<Sending, Fault>
        ensures { IfOk result (SendPlayed from text.items self.old self.new) }
    {
        let outcome = self.device_mut(from).send(text.len())?;
        if let Sending::Sent(message) | Sending::Lost(message) = outcome {
            keep_letter(
                &mut self.letters,
                Letter {
                    from,
                    message,
                    text,
                },
            )?;
        }
        Ok(outcome)
    }

    // A stop is planned for one.
    pub fn plan(&mut self, who: Who, stop: Stop) -> Result<Result<(), BadStop>, Fault>
        ensures plan { IfOk result (Planned stop (plan_of (device who self.old)) (plan_of (device who self.new))) }
        ensures world { world_of self.new ≡ world_of self.old }
        ensures letters { letters_of self.new ≡ letters_of self.old }
    {
        self.device_mut(who).plan(stop)
    }

    // Message `number`, counted from 1.
    pub fn find(&self, number: usize) -> Option<&Letter>
        ensures { Looked number self.now result }
    {
        self.letters.get(number.checked_sub(1)?)
    }

    // A message of one side that left comes to the other; `whole` is false where a bit was turned.
    fn hand_over(&mut self, from: Who, message: Message, whole: bool) -> Result<Taking, Fault>
        requires { among message (party from (world_of self.old)).left ≡ true }
        ensures { IfOk result (Delivered from message whole self.old self.new) }
    {
        self.device_mut(other(from)).take(message, whole)
    }

    // Message `number`, and who sent it, if it can be delivered with this bit turned, if one is named; the two are what a line of a script names.
    fn deliverable(&self, number: usize, flip: Option<usize>) -> Result<(Who, Message), NoDelivery>
        ensures { Deliverable number flip self.now result }
    {
        let letter = self.find(number).ok_or(NoDelivery::NoSuchMessage)?;
        if !letter.has_bit(flip) {
            return Err(NoDelivery::NoSuchBit);
        }
        if !self.device(letter.from).has_left(letter.message) {
            return Err(NoDelivery::NeverLeft);
        }
        Ok((letter.from, letter.message))
    }

    // The other side takes message `number`, with a bit turned if one is named.
    // As in `plan`, a delivery that can't be made is an answer beside the `Fault`; it is handed on by hand, since a step follows that may end in one.
    pub fn deliver(
        &mut self,
        number: usize,
        flip: Option<usize>,
    ) -> Result<Result<Taking, NoDelivery>, Fault>
        ensures { IfOk result (DeliveryIs number flip self.old self.new) }
    {
        match self.deliverable(number, flip) {
            Ok((from, message)) => Ok(Ok(self.hand_over(from, message, flip.is_none())?)),
            Err(why) => Ok(Err(why)),
        }
    }
}
