// The program `model`: hexadecimal lines in; one line per record out, and at the end the controller as the commands left it.
#![tactic(auto)]

use std::process::ExitCode;

fn main(rt: HostRuntime) -> ExitCode {
    ExitCode::from(commands::kernelstill_run_model(rt))
}
