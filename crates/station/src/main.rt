// The program `station`: hexadecimal lines in; one line per record and one per frame out.
#![tactic(auto)]

use std::process::ExitCode;

fn main(rt: HostRuntime) -> ExitCode {
    ExitCode::from(commands::kernelstill_run_station(rt))
}
