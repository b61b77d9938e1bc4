// The program `reply`: hexadecimal lines of the line back in; whether a reply is whole, and its bytes, out.
#![tactic(auto)]

use std::process::ExitCode;

fn main(rt: HostRuntime) -> ExitCode {
    ExitCode::from(commands::kernelstill_run_reply(rt))
}
