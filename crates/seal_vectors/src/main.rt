// Runs the standard's own values of the stream and a script's values of sealing, and prints what comes out.
#![tactic(auto)]

mod message;
mod rfc;
mod sealed;

use std::io;

fn main(rt: HostRuntime) -> io::Result<()> {
    rfc::run(&rt)?;
    sealed::run(&rt)?;
    message::run(&rt)
}
