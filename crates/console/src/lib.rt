// What the programs over scripts share: finding the script, playing it, printing, and how they end.
#![tactic(auto)]

use notation::faults::Fault;
use script::rehearsal;
use script::rehearsal::BadScript;
use script::view::View;
use stage::player::Player;
use std::io::{Read, Write};
use std::process::ExitCode;
use std::{env, fs, io};

// Why a program ends with status 1.
#[derive(Drop)]
enum Failure {
    // the command line is not as it should be
    Usage,
    Io(io::Error),
    Bad(BadScript),
    Fault(Fault),
}

impl From<io::Error> for Failure {
    fn from(e: io::Error) -> Failure {
        Failure::Io(e)
    }
}

impl From<BadScript> for Failure {
    fn from(bad: BadScript) -> Failure {
        Failure::Bad(bad)
    }
}

impl From<Fault> for Failure {
    fn from(fault: Fault) -> Failure {
        Failure::Fault(fault)
    }
}

// The script: the file that is named, or standard input; none where more than one is named, or help is asked for.
fn read_script(rt: &HostRuntime) -> io::Result<Option<Vec<u8>>> {
    let mut args = env::args(rt)?;
    let _ = args.next();
    let Some(path) = args.next() else {
        let mut script = Vec::new(rt.alloc());
        rt.stdin().read_to_end(&mut script)?;
        return Ok(Some(script));
    };
    if args.next().is_some() || path.as_str() == "--help" {
        return Ok(None);
    }
    Ok(Some(fs::read(rt, path.as_str())?))
}

// Plays a script to its end, and puts what stands behind it.
fn play(view: View, script: &[u8], out: &mut Vec<u8>) -> Result<(), Failure> {
    let mut player = Player::new(*out.allocator());
    rehearsal::play_all(&mut player, view, script, out)??;
    view.put_end(&player, out)?;
    Ok(())
}

// Prints what a script prints, up to what is wrong with it, if anything is.
fn run(rt: &HostRuntime, view: View) -> Result<(), Failure> {
    let script = read_script(rt)?.ok_or(Failure::Usage)?;
    let mut out = Vec::new(rt.alloc());
    let ended = play(view, &script, &mut out);
    rt.stdout().write_all(&out)?;
    rt.stdout().flush()?;
    ended
}

// A whole program.
pub fn program(rt: &HostRuntime, name: &str, view: View) -> ExitCode {
    let Err(failure) = run(rt, view) else {
        return ExitCode::SUCCESS;
    };
    // where what became of a script can't be told, why it can't is told in its place
    let _ = match failure {
        Failure::Usage => eprintln!(rt;
            "usage: {name} [FILE]   (a script; standard input where no FILE is named)"
        ),
        Failure::Io(e) => eprintln!(rt; "{name}: {e}"),
        Failure::Bad(bad) => eprintln!(rt; "{bad}").or_else(|e| eprintln!(rt; "{name}: {e}")),
        Failure::Fault(fault) => eprintln!(rt; "{fault}").or_else(|e| eprintln!(rt; "{name}: {e}")),
    };
    ExitCode::FAILURE
}
