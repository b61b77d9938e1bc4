// A run of `reply` over an input: the characters that are read are received, and what it prints and says in the end.
#![tactic(auto)]

ghost use Rattle.std.specs.Prelude.{◌≡◌, true, ◌≤◌, length};
ghost use Rattle.output.specs.Block.{block_length};
ghost use Rattle.statuses.specs.Status.{IsStatus, told};
ghost use Rattle.replies.specs.Replies.{expected_fits};
ghost use Rattle.replying.specs.Replying.{reply_run, report_of, ReceivesBlock};
ghost use Rattle.reply_runs.specs.Runs.{ReplyFinished, RepliedRun};

use posix::{Input, RunError, Speaker, TakesBlocks};
use replying::Replying;
use statuses::Status;

// The bytes that hold the most data bits.
const BUFFER_BYTES: usize = 1024;

// The receiving of an input, block by block, with the buffer that it fills.
#[derive(Clone, Copy)]
struct ReplyRun {
    state: Replying,
    buffer: [u8; BUFFER_BYTES],
}

impl TakesBlocks for ReplyRun {
    ghost took = { λ from characters to. ReceivesBlock (reply_run from.state from.buffer) characters (reply_run to.state to.buffer) };

    fn take_block(&mut self, block: &[u8]) {
        self.state = self.state.receive_block(block, &mut self.buffer);
    }

    fn is_over(&self) -> bool {
        self.state.is_over()
    }
}

// The end of a run: the lines of a reply or of a refusal, the message, the status.
fn finish(
    speaker: Speaker<'_>,
    state: Replying,
    buffer: &[u8],
    output: &mut [u8],
) -> Result<Status, RunError>
    requires { (length buffer.now ≤ 1024) × (length output.old ≡ block_length) }
    ensures { ReplyFinished (report_of state) (told result) }
{
    let report = state.report();
    let text = report.put_text(buffer, output);
    let written = posix::write_whole(speaker.rt, &output[..text]);
    posix::end_output(speaker.rt, written)?;
    if report.is_whole() {
        return Ok(Status::Whole);
    }
    let message = report.put_message(output);
    speaker.tell(&output[..message]);
    Ok(Status::Refused)
}

// A run over an input that is open, up to its end, to a whole reply or to a refusal.
fn read_reply(speaker: Speaker<'_>, from: &mut Input, expected: u32) -> Result<Status, RunError>
    requires { expected_fits expected ≡ true }
    ensures { RepliedRun expected (told result) }
{
    let mut input = io::large_buffer();
    let mut run = ReplyRun {
        state: Replying::start(expected),
        buffer: [0; BUFFER_BYTES],
    };
    posix::read_blocks(&mut run, from, &mut input)?;
    let state = run.state.end_input(&mut run.buffer);
    finish(speaker, state, &run.buffer, &mut input)
}

pub fn reply_input(
    speaker: Speaker<'_>,
    from: &mut Input,
    expected: u32,
) -> Result<Status, RunError>
    requires { expected_fits expected ≡ true }
    ensures { IsStatus (told result) }
{
    read_reply(speaker, from, expected)
}
