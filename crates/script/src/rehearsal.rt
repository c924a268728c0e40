// A whole script, line by line; the output stands beside the player, since it is the caller's and may be another at each line.
ghost use Rattle.std.specs.Prelude.{Some, ◌≡◌, IfOk, OnOk};
ghost use Rattle.stage.specs.Players.{world_of};
ghost use Rattle.script.specs.Reasons.{bad_script_text};
ghost use Rattle.script.specs.Views.{Turned};
ghost use Rattle.script.specs.Whole.{Ended, Lawful, without_newline};

use crate::play::{BadLine, Outcome, Played};
use crate::view::View;
use notation::faults::Fault;
use stage::player::Player;
use std::fmt;

// The first line of a script that is no good, counted from 1, and why.
#[derive(Clone, Copy, Debug, PartialEq, Eq)]
pub struct BadScript {
    pub line: usize,
    pub why: BadLine,
}

// `line K: why`
impl fmt::Display for BadScript {
    ghost output = { λ bad. Some (bad_script_text bad) };

    fn fmt<W: fmt::Write>(&self, f: &mut fmt::Formatter<W>) -> fmt::Result {
        let line = self.line;
        let why = self.why;
        write!(f, "line {line}: {why}")
    }
}

// A line without the newline that ends it, if one does.
fn without_newline(line: &[u8]) -> &[u8]
    ensures { result.now ≡ without_newline line.now }
{
    line.strip_suffix(b"\n").unwrap_or(line)
}

// Plays the line of this number, and shows what is to be shown where it is `show`.
fn turn(
    player: &mut Player,
    view: View,
    number: usize,
    line: &[u8],
    out: &mut Vec<u8>,
) -> Result<Outcome, Fault>
    ensures { IfOk result (Turned view number line.now player.old player.new out.old.items out.new.items) }
{
    let played = view.play(player, line, out)?;
    if let Ok(Played::Show) = played {
        view.put_show(player, number, out)?;
    }
    Ok(played)
}

// Plays a script, line by line, to its end or to its first bad line.
pub fn play_all(
    player: &mut Player,
    view: View,
    script: &[u8],
    out: &mut Vec<u8>,
) -> Result<Result<(), BadScript>, Fault>
    ensures ended { IfOk result (Ended view script.now player.old out.old.items player.new out.new.items) }
    ensures lawful { OnOk result (Lawful (world_of player.old) (world_of player.new)) }
{
    // counted here: the definition's number stays at its greatest, and by `enumerate` it would have to be shown that no script has so many lines
    let mut number = 1usize;
    for line in script.split_inclusive(|b| *b == b'\n') {
        if let Err(why) = turn(player, view, number, without_newline(line), out)? {
            return Ok(Err(BadScript { line: number, why }));
        }
        number = number.saturating_add(1);
    }
    Ok(Ok(()))
}
