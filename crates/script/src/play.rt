// One line of a script: the step that it asks for, and what that prints.
ghost use Rattle.std.specs.Prelude.{◌≡◌, Some, drop, IfOk};
ghost use Rattle.script.specs.Commands.{parsed};
ghost use Rattle.script.specs.Reasons.{reason_of};
ghost use Rattle.script.specs.Played.{SendLine, DeliverLine, PlanLine, ReadLine, LinePlayed};

use crate::commands::Command;
use crate::{commands, output};
use notation::faults::Fault;
use notation::text;
use runs::types::Who;
use stage::player::Player;
use stage::types::{BadStop, NoDelivery, Stop};
use std::fmt;

// Why a line is no good.
#[derive(Clone, Copy, Debug, PartialEq, Eq)]
pub enum BadLine {
    NoCommand,
    BadText,
    Delivery(NoDelivery),
    Stop(BadStop),
}

// What playing a good line comes to.
#[derive(Clone, Copy, Debug, PartialEq, Eq)]
pub enum Played {
    Done,
    // the line is `show`: the caller prints what is to be shown
    Show,
}

// What playing a line comes to; a `Fault`, which ends the run, stands outside it, since the theorems speak of the line alone.
pub type Outcome = Result<Played, BadLine>;

// What is wrong with a line, in words.
impl fmt::Display for BadLine {
    ghost output = { λ why. Some (reason_of why) };

    fn fmt<W: fmt::Write>(&self, f: &mut fmt::Formatter<W>) -> fmt::Result {
        f.write_str(match self {
            BadLine::NoCommand => "not a command",
            BadLine::BadText => "a bad escape in the text",
            BadLine::Delivery(NoDelivery::NoSuchMessage) => "there is no such message",
            BadLine::Delivery(NoDelivery::NoSuchBit) => "the message has no such bit",
            BadLine::Delivery(NoDelivery::NeverLeft) => "the message never left",
            BadLine::Stop(BadStop::NoSuchWrite) => "writes are counted from 1",
            BadLine::Stop(BadStop::Past) => "that write has been",
            BadLine::Stop(BadStop::SetAlready) => "a stop is set for that write already",
        })
    }
}

// `send S TEXT`; the text as the line writes it.
fn play_send(
    player: &mut Player,
    from: Who,
    raw: &[u8],
    out: &mut Vec<u8>,
) -> Result<Outcome, Fault>
    ensures { IfOk result (SendLine from raw.now player.old player.new out.old.items out.new.items) }
{
    let Some(text) = text::unescape(*out.allocator(), raw)? else {
        return Ok(Err(BadLine::BadText));
    };
    let outcome = player.send(from, text)?;
    output::put_sending(out, player.letters.len(), outcome)?;
    Ok(Ok(Played::Done))
}

// `deliver M`, with a bit turned if one is named.
fn play_deliver(
    player: &mut Player,
    number: usize,
    flip: Option<usize>,
    out: &mut Vec<u8>,
) -> Result<Outcome, Fault>
    ensures { IfOk result (DeliverLine number flip player.old player.new out.old.items out.new.items) }
{
    let taken = player.deliver(number, flip)?;
    // a message that was delivered is found: it has that number
    if let (Ok(taking), Some(letter)) = (taken, player.find(number)) {
        output::put_taking(out, number, letter.text.as_slice(), taking)?;
    }
    Ok(
        taken
            .map(|_| Played::Done)
            .map_err(|why| BadLine::Delivery(why)),
    )
}

// `stop S before N` and `stop S after N`
fn play_plan(player: &mut Player, who: Who, stop: Stop) -> Result<Outcome, Fault>
    ensures { IfOk result (PlanLine who stop player.old player.new) }
{
    Ok(
        player
            .plan(who, stop)?
            .map(|()| Played::Done)
            .map_err(|why| BadLine::Stop(why)),
    )
}

// `read S`
fn play_read(player: &mut Player, who: Who, out: &mut Vec<u8>) -> Result<Outcome, Fault>
    ensures { IfOk result (ReadLine who player.old player.new out.old.items out.new.items) }
{
    player.read(who)?;
    output::put_read(out, who)?;
    Ok(Ok(Played::Done))
}

// A line from this place on.
fn behind(line: &[u8], at: usize) -> &[u8]
    ensures { result.now ≡ drop at line.now }
{
    line.get(at..).unwrap_or(&[])
}

// Plays one line of a script, by what it asks for: an arm for each, as it is defined.
pub fn play(player: &mut Player, line: &[u8], out: &mut Vec<u8>) -> Result<Outcome, Fault>
    ensures { IfOk result (LinePlayed (parsed line.now) line.now player.old player.new out.old.items out.new.items) }
{
    let Some(command) = commands::parse(line) else {
        return Ok(Err(BadLine::NoCommand));
    };
    match command {
        Command::Nothing => Ok(Ok(Played::Done)),
        Command::Show => Ok(Ok(Played::Show)),
        Command::Read(who) => play_read(player, who, out),
        Command::Plan(who, stop) => play_plan(player, who, stop),
        Command::Deliver(number, bit) => play_deliver(
            player,
            number as usize,
            bit.map(|bit| bit as usize),
            out,
        ),
        Command::Send(from, at) => play_send(player, from, behind(line, at), out),
    }
}
