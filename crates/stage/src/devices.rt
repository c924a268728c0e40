// The steps of a device: the page is written first, and only then is a message sealed, or a text handed out.
// `send` and `take` are alike but for what they note and come to; a refusal is one of these and no error, and so is handed on by hand.
ghost use Rattle.std.specs.Prelude.{◌≡◌, [], IfOk};
ghost use Rattle.ratchet.specs.State.{state_of};
ghost use Rattle.runs.specs.World.{among};
ghost use Rattle.stage.specs.Devices.{party_of, plan_of, page_after, SendDone, TakeDone};
ghost use Rattle.stage.specs.Plan.{due_next, plan_after, Planned};

use crate::device::Device;
use crate::types::{BadStop, Sending, Stop, Taking, When};
use notation::faults::Fault;
use ratchet::sides::Side;
use ratchet::steps;
use ratchet::steps::Taken;
use ratchet::types::Message;
use std::alloc::Global;
use std::collections::BTreeMap;

impl Device {
    // A side that begins.
    pub fn new(heap: Global, side: Side) -> Device
        ensures party { party_of result ≡ record { side = state_of side; sealed = []; left = []; opened = []; handed = [] } }
        ensures plan { plan_of result ≡ record { writes = 0; stops = [] } }
    {
        Device {
            side,
            page: side,
            writes: 0,
            stops: BTreeMap::new(heap),
            sealed: Vec::new(heap),
            left: Vec::new(heap),
            opened: Vec::new(heap),
            handed: Vec::new(heap),
        }
    }

    // Did this message leave the side. Not inlined: within a large caller the search can take half as long again.
    #[inline(never)]
    pub fn has_left(&self, message: Message) -> bool
        ensures { result ≡ among message self.now.left.items }
    {
        let mut left = self.left.iter();
        // the mark first: `before` is the same in all of a link, and yet `==` on messages begins with it
        left.any(|x| x.mark == message.mark && x.before == message.before)
    }

    // Plans a stop, for a write that is to come and has none yet.
    // A Result in a Result: a `Fault` ends the rehearsal and nothing is stated of it, a stop that can't be set is an answer that the contract speaks of.
    pub fn plan(&mut self, stop: Stop) -> Result<Result<(), BadStop>, Fault>
        ensures plan { IfOk result (Planned stop (plan_of self.old) (plan_of self.new)) }
        ensures party { party_of self.new ≡ party_of self.old }
    {
        if stop.write == 0 {
            return Ok(Err(BadStop::NoSuchWrite));
        }
        if stop.write <= self.writes {
            return Ok(Err(BadStop::Past));
        }
        if self.stops.contains_key(&stop.write) {
            return Ok(Err(BadStop::SetAlready));
        }
        self.stops.insert(stop.write, stop.when)?;
        Ok(Ok(()))
    }

    // Sends a text of so many bytes; the plan may have the side stop before its write, or after it: an if for each, since between the two something is noted.
    pub fn send(&mut self, text_length: usize) -> Result<Sending, Fault>
        ensures { IfOk result (SendDone text_length self.old self.new) }
    {
        let (next, message) = match steps::send(self.side, text_length) {
            Ok(sealed) => sealed,
            Err(refused) => return Ok(Sending::Refused(refused.why)),
        };
        let stop = self.write(next)?;
        if let Some(When::Before) = stop {
            return Ok(Sending::Stopped);
        }
        self.sealed.push(message)?;
        if let Some(When::After) = stop {
            return Ok(Sending::Lost(message));
        }
        self.left.push(message)?;
        Ok(Sending::Sent(message))
    }

    // Takes a message; `opens` says whether it opens, a bool as for the step of the side.
    pub fn take(&mut self, message: Message, opens: bool) -> Result<Taking, Fault>
        ensures { IfOk result (TakeDone message opens self.old self.new) }
    {
        let next = match steps::take(self.side, message, opens) {
            Taken::Refused(_, why) => return Ok(Taking::Refused(why)),
            Taken::Opened(next) => next,
        };
        let stop = self.write(next)?;
        if let Some(When::Before) = stop {
            return Ok(Taking::Stopped);
        }
        self.opened.push(message)?;
        if let Some(When::After) = stop {
            return Ok(Taking::Lost);
        }
        self.handed.push(message)?;
        Ok(Taking::Opened)
    }

    // Writes the page of the side after a step, unless a stop is planned before this write; from here on the side is what its page says.
    // Says what stop was planned for this write; the plan is then without it.
    fn write(&mut self, next: Side) -> Result<Option<When>, Fault>
        ensures stop { IfOk result (λ stop. stop ≡ due_next (plan_of self.old)) }
        ensures plan { IfOk result (λ stop. plan_of self.new ≡ plan_after stop (plan_of self.old)) }
        ensures party { IfOk result (λ stop. party_of self.new ≡ record (party_of self.old) { side = page_after stop (state_of self.old.page) (state_of next) }) }
    {
        let number = self.writes.checked_add(1).ok_or(Fault::TooLong)?;
        let stop = self.stops.remove(&number);
        if let Some(When::Before) = stop {
            return Ok(stop);
        }
        self.page = next;
        self.side = next;
        self.writes = number;
        Ok(stop)
    }
}
