// The program `accept`: hexadecimal lines in; a line for the first pattern at fault, if there is one, out.
#![tactic(auto)]

use std::process::ExitCode;

fn main(rt: HostRuntime) -> ExitCode {
    ExitCode::from(commands::kernelstill_run_accept(rt))
}
