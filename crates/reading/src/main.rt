// The program `reading`: hexadecimal lines in; one line per record out.
#![tactic(auto)]

use std::process::ExitCode;

fn main(rt: HostRuntime) -> ExitCode {
    ExitCode::from(commands::kernelstill_run_reading(rt))
}
