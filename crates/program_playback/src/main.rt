// Plays a site's recording back: the messages sent, bad lines, and the listing. docs/RECORDING.md has the format.
#![tactic(auto)]

use std::process::ExitCode;

fn main(rt: HostRuntime) -> ExitCode {
    recording_program::run(&rt, false)
}
