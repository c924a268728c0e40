// Plays a script and prints, at each `show` and at its end, of each message who can open it.
#![tactic(auto)]

use console::program;
use script::view::View;
use std::process::ExitCode;

fn main(rt: HostRuntime) -> ExitCode {
    program(&rt, "open", View::Openness)
}
