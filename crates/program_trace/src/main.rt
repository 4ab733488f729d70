// Plays a site's recording back and tells of every call: the trace. docs/RECORDING.md has the format.
#![tactic(auto)]

use std::process::ExitCode;

fn main(rt: HostRuntime) -> ExitCode {
    recording_program::run(&rt, true)
}
