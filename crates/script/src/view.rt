// What is shown of a rehearsal: what each side holds, or who can open what.
ghost use Rattle.std.specs.Prelude.{◌≡◌, ◌++◌, map, IfOk, OnOk};
ghost use Rattle.script.specs.Output.{shown};
ghost use Rattle.stage.specs.Players.{world_of};
ghost use Rattle.script.specs.Views.{mark_of, openness_of, show_of, end_of, Viewed};

use crate::output;
use crate::play::{Outcome, play};
use exposure::rows;
use notation::faults::Fault;
use ratchet::types::Mark;
use runs::types::Who;
use stage::player::{Letter, Player};
use std::alloc::Global;
use std::io::Write;

// What a `show` shows; an enum and no trait, since the theorems on a whole script speak of both by name.
#[derive(Clone, Copy, Debug, PartialEq, Eq)]
pub enum View {
    // what each side holds
    Sides,
    // of each message, who can open it
    Openness,
}

// The marks of the messages sealed so far, in their order.
fn marks_of(heap: Global, letters: &[Letter]) -> Result<Vec<Mark>, Fault>
    ensures { IfOk result (λ v. v.items ≡ map mark_of letters.now) }
{
    Ok(
        letters
            .iter()
            .map(|letter| letter.message.mark)
            .collect(heap)?,
    )
}

// What both sides hold.
fn put_sides(player: &Player, out: &mut Vec<u8>) -> Result<(), Fault>
    ensures { OnOk result (out.new.items ≡ out.old.items ++ shown (world_of player.now)) }
{
    output::put_side(out, Who::First, &player.first.page)?;
    output::put_side(out, Who::Second, &player.second.page)?;
    Ok(())
}

// Of each message sealed so far, whether its key lies open and whether it can be worked out.
fn put_openness(player: &Player, out: &mut Vec<u8>) -> Result<(), Fault>
    ensures { OnOk result (out.new.items ≡ out.old.items ++ openness_of player.now) }
{
    let marks = marks_of(*out.allocator(), player.letters.as_slice())?;
    rows::put_rows(player.readings.as_slice(), marks.as_slice(), out)?;
    Ok(())
}

impl View {
    // What a `show` on this line prints.
    pub(crate) fn put_show(
        self,
        player: &Player,
        number: usize,
        out: &mut Vec<u8>,
    ) -> Result<(), Fault>
        ensures { OnOk result (out.new.items ≡ out.old.items ++ show_of self number player.now) }
    {
        match self {
            View::Sides => put_sides(player, out),
            View::Openness => {
                writeln!(out, "line {number}")?;
                put_openness(player, out)
            }
        }
    }

    // Plays a line; what it prints is kept only where the sides are viewed.
    pub(crate) fn play(
        self,
        player: &mut Player,
        line: &[u8],
        out: &mut Vec<u8>,
    ) -> Result<Outcome, Fault>
        ensures { IfOk result (Viewed self line.now player.old player.new out.old.items out.new.items) }
    {
        match self {
            View::Sides => play(player, line, out),
            View::Openness => {
                let mut unheard = Vec::new(*out.allocator());
                play(player, line, &mut unheard)
            }
        }
    }

    // What stands behind the last line of a script: nothing for the sides, `end` and the rows for who can open what.
    pub fn put_end(self, player: &Player, out: &mut Vec<u8>) -> Result<(), Fault>
        ensures { OnOk result (out.new.items ≡ out.old.items ++ end_of self player.now) }
    {
        match self {
            View::Sides => Ok(()),
            View::Openness => {
                writeln!(out, "end")?;
                put_openness(player, out)
            }
        }
    }
}
