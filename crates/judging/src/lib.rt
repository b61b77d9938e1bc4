// A run of `accept` but for its reads and writes: from the characters of hexadecimal lines to what is said of their bits.
#![tactic(auto)]

ghost use Rattle.std.specs.Prelude.{◌≡◌};
ghost use Rattle.line_meanings.specs.Line.{hex_number};
ghost use Rattle.line_meanings.specs.Lines.{answer_of};
ghost use Rattle.judgements.specs.Judgement.{next_line_number};
ghost use Rattle.judging.specs.Judging.{start, refused_at, WellFormed, EndsLine, JudgesBlock, EndsInput, judgement_of};

use acceptance::Progress;
use decoder::Decoder;
use judgements::Judgement;
use line_meanings::{LineNotes, LineSoFar};

// The state of a run under way.
#[derive(Clone, Copy)]
pub struct Judging {
    pub progress: Progress,
    // The present line so far, or the line that was refused, and how many lines have ended.
    pub line: LineSoFar,
    pub lines: u64,
    // The bits of the lines that have ended.
    pub bits: u64,
    // Whether a refused line or a pattern at fault has ended the run, and the number of a refused line, 0 for none, as the definitions (`judgement_of`,
    // `still_judged`) take them.
    pub over: bool,
    pub number: u8,
}

// The refusal number of a line whose bits pass the last clock cycle.
const CLOCK_OVER: u8 = 6;

impl Judging {
    pub fn start() -> Judging
        ensures { result ≡ start }
    {
        Judging {
            progress: Progress::start(),
            line: LineSoFar::empty(),
            lines: 0,
            bits: 0,
            over: false,
            number: 0,
        }
    }

    // A line is refused, and ends the run.
    fn refused(self, line: LineSoFar, lines: u64, number: u8) -> Judging
        ensures { result ≡ refused_at self line lines number }
    {
        Judging {
            line,
            lines,
            over: true,
            number,
            ..self
        }
    }

    // The present line has ended and is fit: its bits are judged, unless they pass the last clock cycle.
    fn judge_line(self, lines: u64) -> Judging
        requires { WellFormed self × (hex_number (answer_of self.line) ≡ 0) × (lines ≡ next_line_number self.lines) }
        ensures { EndsLine self result }
    {
        let line = self.line;
        // A digit has four bits.
        let count = 4 * line.digits;
        if Decoder::CLOCK_LIMIT - self.bits < count as u64 {
            return self.refused(LineSoFar::empty(), lines, CLOCK_OVER);
        }
        let bytes = line.bytes;
        let progress = self.progress.check(&bytes, 0, count);
        Judging {
            progress,
            line: LineSoFar::empty(),
            lines,
            bits: self.bits + count as u64,
            over: progress.fault != 0,
            number: 0,
        }
    }

    // The present line has ended: its bits are judged, or it is refused.
    fn end_line(self) -> Judging
        requires { WellFormed self }
        ensures { EndsLine self result }
    {
        let lines = self.lines.wrapping_add(1);
        if let Err(fault) = self.line.answer() {
            return self.refused(self.line, lines, fault.number());
        }
        self.judge_line(lines)
    }

    // The characters of a block, up to its end or to a refusal.
    pub fn judge_block(self, input: &[u8]) -> Judging
        requires { WellFormed self }
        ensures { JudgesBlock self input.now result }
    {
        let mut state = self;
        let mut next = 0;
        // Each turn takes as much of the block as a line has, so no `for` counts them.
        while next < input.len() && !state.over {
            let scanned = line_scans::scan(state.line, input, next);
            next = scanned.next;
            state.line = scanned.line;
            if scanned.complete {
                state = state.end_line();
            }
        }
        state
    }

    // The input has ended, and with it a line that has begun.
    pub fn end_input(self) -> Judging
        requires { WellFormed self }
        ensures { EndsInput self result }
    {
        if self.over || self.line.is_empty() {
            return self;
        }
        self.end_line()
    }

    // What is said if the run ends here.
    pub fn judgement(self) -> Judgement
        requires { WellFormed self }
        ensures { result ≡ judgement_of self }
    {
        if self.number != 0 {
            return Judgement {
                number: self.number,
                place: 0,
                line: self.lines,
                notes: self.line.notes,
            };
        }
        let (number, place) = match self.progress.verdict() {
            Ok(()) => (0, 0),
            Err(fault) => (fault.number(), fault.place()),
        };
        Judgement {
            number,
            place,
            line: 0,
            notes: LineNotes {
                length: 0,
                place: 0,
                character: 0,
            },
        }
    }
}
