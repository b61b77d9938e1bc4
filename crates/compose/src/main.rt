// The program `compose`: orders, one a line, in; hexadecimal lines of their stream out.
#![tactic(auto)]

use std::process::ExitCode;

fn main(rt: HostRuntime) -> ExitCode {
    ExitCode::from(commands::kernelstill_run_compose(rt))
}
