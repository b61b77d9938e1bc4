// The parts of a program's run over an input beside its loop: a read where one is due, and the end of the run.
#![tactic(auto)]

ghost use Rattle.std.specs.Prelude.{◌≡◌, ◌<◌, length};
ghost use Rattle.output.specs.Block.{block_length};
ghost use Rattle.limits.specs.Limits.{store_length};
ghost use Rattle.statuses.specs.Status.{Finished, told};
ghost use Rattle.run_parts.specs.Refills.{AfterRefill};

use posix::{Input, RunError, Speaker};
use program::{PrintOptions, RunState};
use statuses::Status;

// The run after the next read, where one is due. After the input's end there is none.
pub fn refill(state: RunState, from: &mut Input, input: &mut [u8]) -> Result<RunState, RunError>
    requires { 0 < length input.old }
    ensures { AfterRefill state input.old result input.new }
{
    if !state.wants_input() {
        return Ok(state);
    }
    if state.eof {
        return Ok(state.receive(input, 0));
    }
    let count = posix::read_input(from, input)?;
    Ok(state.receive(input, count))
}

// The end of a run: the lines of the state, the message of a refusal, the status.
pub fn finish(
    speaker: Speaker<'_>,
    state: RunState,
    prints: PrintOptions,
    store: &[u32],
    output: &mut [u8],
) -> Result<Status, RunError>
    requires { (length store.now ≡ store_length) × (length output.old ≡ block_length) }
    ensures { Finished state.number (told result) }
{
    let lines = state.put_state_lines(prints, store, output);
    let written = posix::write_whole(speaker.rt, &output[..lines]);
    posix::end_output(speaker.rt, written)?;
    if state.number == 0 {
        return Ok(Status::Whole);
    }
    let message = state.put_message(output);
    speaker.tell(&output[..message]);
    Ok(Status::Refused)
}
