// A run of `accept` over an input: the characters that are read are judged, and what it prints and says in the end.
#![tactic(auto)]

ghost use Rattle.std.specs.Prelude.{◌≡◌, length};
ghost use Rattle.output.specs.Block.{block_length};
ghost use Rattle.statuses.specs.Status.{IsStatus, Finished, told};
ghost use Rattle.judging.specs.Judging.{WellFormed, JudgesBlock, judgement_of};
ghost use Rattle.judge_runs.specs.Runs.{JudgedRun};

use judging::Judging;
use posix::{Input, RunError, Speaker, TakesBlocks};
use statuses::Status;

// The judging of an input, block by block.
#[derive(Clone, Copy)]
struct JudgeRun {
    state: Judging,
}

impl TakesBlocks for JudgeRun {
    ghost took = { λ from characters to. JudgesBlock from.state characters to.state };

    fn take_block(&mut self, block: &[u8]) {
        self.state = self.state.judge_block(block);
    }

    fn is_over(&self) -> bool {
        self.state.over
    }
}

// The end of a run: the line of a refusal, its message, the status.
fn finish(speaker: Speaker<'_>, state: Judging, output: &mut [u8]) -> Result<Status, RunError>
    requires { WellFormed state × (length output.old ≡ block_length) }
    ensures { Finished (judgement_of state).number (told result) }
{
    let judgement = state.judgement();
    let text = judgement.put_text(output);
    let written = posix::write_whole(speaker.rt, &output[..text]);
    posix::end_output(speaker.rt, written)?;
    if judgement.number == 0 {
        return Ok(Status::Whole);
    }
    let message = judgement.put_message(output);
    speaker.tell(&output[..message]);
    Ok(Status::Refused)
}

// A run over an input that is open, up to its end or to a refusal.
fn judge(speaker: Speaker<'_>, from: &mut Input) -> Result<Status, RunError>
    ensures { JudgedRun (told result) }
{
    let mut input = io::large_buffer();
    let mut run = JudgeRun {
        state: Judging::start(),
    };
    posix::read_blocks(&mut run, from, &mut input)?;
    finish(speaker, run.state.end_input(), &mut input)
}

pub fn judge_input(speaker: Speaker<'_>, from: &mut Input) -> Result<Status, RunError>
    ensures { IsStatus (told result) }
{
    judge(speaker, from)
}
