// A run of `compose` over an input: the characters that are read are composed. What it prints and says in the end is in `compose_ends`.
#![tactic(auto)]

ghost use Rattle.statuses.specs.Status.{IsStatus, told};
ghost use Rattle.line_ends.specs.LineEnds.{Lent};
ghost use Rattle.order_texts.specs.Running.{ComposesBlock};
ghost use Rattle.compose_runs.specs.Runs.{ComposedRun};

use compositions::Composition;
use posix::{Input, RunError, Speaker, TakesBlocks};
use statuses::Status;

// The composing of an input, block by block, with the buffers that it lends to the composing.
#[derive(Clone, Copy)]
struct ComposeRun {
    state: Composition,
    line: [u8; text_words::LINE_LIMIT],
    frame: [u8; text_frames::FRAME_LIMIT],
    out: [u8; compositions::OUTPUT_LIMIT],
}

impl TakesBlocks for ComposeRun {
    ghost took = { λ from characters to. ComposesBlock from.state from.line from.out characters to.state to.line to.out × Lent to.line to.frame };

    fn take_block(&mut self, block: &[u8]) {
        self.state = order_texts::compose_block(
            self.state,
            block,
            &mut self.line,
            &mut self.frame,
            &mut self.out,
        );
    }

    fn is_over(&self) -> bool {
        self.state.is_over()
    }
}

// A run over an input that is open, up to its end or to a refusal.
fn compose(speaker: Speaker<'_>, from: &mut Input) -> Result<Status, RunError>
    ensures { ComposedRun (told result) }
{
    let mut input = io::large_buffer();
    let mut run = ComposeRun {
        state: Composition::start(),
        line: [0; text_words::LINE_LIMIT],
        frame: [0; text_frames::FRAME_LIMIT],
        out: [0; compositions::OUTPUT_LIMIT],
    };
    posix::read_blocks(&mut run, from, &mut input)?;
    let last = order_texts::end_input(run.state, &run.line, &mut run.frame, &mut run.out);
    let outcome = last.outcome(&mut run.out);
    compose_ends::finish(speaker, outcome, &run.out, &mut input)
}

pub fn compose_input(speaker: Speaker<'_>, from: &mut Input) -> Result<Status, RunError>
    ensures { IsStatus (told result) }
{
    compose(speaker, from)
}
