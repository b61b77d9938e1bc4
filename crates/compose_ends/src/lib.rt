// What a run of `compose` prints and says in the end.
#![tactic(auto)]

ghost use Rattle.std.specs.Prelude.{◌≡◌, ◌≤◌, IfOk, length};
ghost use Rattle.output.specs.Block.{block_length};
ghost use Rattle.compositions.specs.Compositions.{outcome_number};
ghost use Rattle.statuses.specs.Status.{Finished, told};

use order_refusals::Refusal;
use posix::{RunError, Speaker};
use statuses::Status;

// Writes the hexadecimal lines of the stream, part by part: the text of each fills a block.
fn write_stream(rt: HostRuntime, bytes: &[u8], text: &mut [u8]) -> Result<(), RunError>
    requires { length text.old ≡ block_length }
{
    for part in bytes.chunks(stream_lines::PART_BYTES) {
        let n = stream_lines::put_stream(part, text);
        posix::write_whole(rt, &text[..n])?;
    }
    Ok(())
}

// Writes what the outcome prints: the stream, or the line of a refusal.
fn write_outcome(
    rt: HostRuntime,
    outcome: Result<usize, Refusal>,
    stream: &[u8],
    text: &mut [u8],
) -> Result<(), RunError>
    requires { IfOk outcome (λ bytes. bytes ≤ length stream.now) × (length text.old ≡ block_length) }
{
    match outcome {
        Ok(bytes) => write_stream(rt, &stream[..bytes], text),
        Err(refusal) => {
            let n = refusal.put_line(text);
            posix::write_whole(rt, &text[..n])
        }
    }
}

// The end of a run: the stream or the line of a refusal, its message, the status.
pub fn finish(
    speaker: Speaker<'_>,
    outcome: Result<usize, Refusal>,
    stream: &[u8],
    text: &mut [u8],
) -> Result<Status, RunError>
    requires { IfOk outcome (λ bytes. bytes ≤ length stream.now) × (length text.old ≡ block_length) }
    ensures { Finished (outcome_number outcome) (told result) }
{
    let written = write_outcome(speaker.rt, outcome, stream, text);
    posix::end_output(speaker.rt, written)?;
    match outcome {
        Ok(_) => Ok(Status::Whole),
        Err(refusal) => {
            let message = refusal.put_message(text);
            speaker.tell(&text[..message]);
            Ok(Status::Refused)
        }
    }
}
