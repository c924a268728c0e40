// Plays a script with both sides and prints what comes of each line.
#![tactic(auto)]

use console::program;
use script::view::View;
use std::process::ExitCode;

fn main(rt: HostRuntime) -> ExitCode {
    program(&rt, "rehearse", View::Sides)
}
