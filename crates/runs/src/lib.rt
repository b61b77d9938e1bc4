// A program's run over an input: the loop that reads, has the characters turned into text by the crate `program`, and writes.
#![tactic(auto)]

ghost use Rattle.std.specs.Prelude.{◌≡◌, length};
ghost use Rattle.limits.specs.Limits.{store_length, tray_length};
ghost use Rattle.statuses.specs.Status.{IsStatus, told};
ghost use Rattle.runs.specs.Runs.{Ran};

use decoder::Decoder;
use posix::{Input, RunError, Speaker};
use program::{PrintOptions, RunState};
use statuses::Status;

// A run over an input that is open: what a read brought is listed and written before the next read.
fn list(
    speaker: Speaker<'_>,
    from: &mut Input,
    prints: PrintOptions,
    store: &mut [u32],
    tray: &mut [u8],
) -> Result<Status, RunError>
    requires { (length store.old ≡ store_length) × (length tray.old ≡ tray_length) }
    ensures { Ran prints (told result) store.old tray.old store.new tray.new }
{
    let mut input = io::large_buffer();
    let mut output = io::large_buffer();
    let mut state = RunState::start();
    // A read is due only where all that came before is listed, and each text is written: more than `posix::read_blocks` asks of a run.
    for _ in 0..posix::TURNS {
        if state.over {
            return run_parts::finish(speaker, state, prints, store, &mut output);
        }
        let received = run_parts::refill(state, from, &mut input)?;
        let length = received.length;
        state = blocks::list_block(
            received,
            &input[..length],
            store,
            tray,
            &mut output,
            prints.frames,
        );
        posix::write_whole(speaker.rt, &output[..state.filled])?;
        state.filled = 0;
    }
    Err(RunError::Turns)
}

// "Its 2,048 FIFO words start at zero".
pub fn list_input(
    speaker: Speaker<'_>,
    from: &mut Input,
    prints: PrintOptions,
) -> Result<Status, RunError>
    ensures { IsStatus (told result) }
{
    let mut store = [0u32; Decoder::STORE_LENGTH];
    let mut tray = [0u8; Decoder::TRAY_LENGTH];
    list(speaker, from, prints, &mut store, &mut tray)
}
