// A run of `reply` but for its reads and writes: from the characters of hexadecimal lines to what is said of their reply.
#![tactic(auto)]

ghost use Rattle.std.specs.Prelude.{◌≡◌, ◌≤◌};
ghost use Rattle.replies.specs.Replies.{most_bits};
ghost use Rattle.hex_streams.specs.SoFar.{PartFits};
ghost use Rattle.replying.specs.Replying.{start, is_over, reply_run, WellFormed, report_of, Receives, ReceivesBlock, EndsInput};

use hex_streams::{StreamPart, StreamSoFar};
use line_meanings::LineNotes;
use replies::Reception;
use reply_reports::Report;

// The state of a run under way: the stream so far, and what is received of a reply of so many bits.
#[derive(Clone, Copy)]
pub struct Replying {
    pub expected: u32,
    pub reception: Reception,
    pub stream: StreamSoFar,
}

impl Replying {
    pub fn start(expected: u32) -> Replying
        requires { expected ≤ most_bits }
        ensures { result ≡ start expected }
    {
        Replying {
            expected,
            reception: Reception::start(expected),
            stream: StreamSoFar::start(),
        }
    }

    // Whether a whole reply or a refused line has ended the run.
    pub fn is_over(self) -> bool
        ensures { result ≡ is_over self }
    {
        self.reception.is_whole() || self.stream.number != 0
    }

    // More of the stream: its bits are received.
    fn receive(self, part: StreamPart, buffer: &mut [u8]) -> Replying
        requires { WellFormed self × PartFits self.stream part }
        ensures { Receives (reply_run self buffer.old) part (reply_run result buffer.new) }
    {
        let bytes = part.bytes;
        Replying {
            reception: self.reception.receive(&bytes, 0, part.count, buffer),
            stream: part.stream,
            ..self
        }
    }

    // The characters of a block, up to its end or to what ends the run.
    pub fn receive_block(self, input: &[u8], buffer: &mut [u8]) -> Replying
        requires { WellFormed self }
        ensures { ReceivesBlock (reply_run self buffer.old) input.now (reply_run result buffer.new) }
    {
        let mut state = self;
        let mut next = 0;
        // Each turn takes as much of the block as a line has, so no `for` counts them.
        while (next < input.len()) & !state.is_over() {
            let part = state.stream.read_on(input, next);
            next = part.next;
            state = state.receive(part, buffer);
        }
        state
    }

    // The input has ended, and with it a line that has begun.
    pub fn end_input(self, buffer: &mut [u8]) -> Replying
        requires { WellFormed self }
        ensures { EndsInput (reply_run self buffer.old) (reply_run result buffer.new) }
    {
        self.receive(self.stream.end_input(), buffer)
    }

    // What is said if the run ends here, after a line's end.
    pub fn report(self) -> Report
        ensures { result ≡ report_of self }
    {
        let reply = self.reception.reply();
        let expected = self.expected as u64;
        let verdict = reply.verdict();
        let bits = reply.bits(expected);
        let stream = self.stream;
        if (verdict == 0) | (stream.number == 0) {
            return Report {
                verdict,
                bits,
                expected,
                number: 0,
                line: 0,
                notes: LineNotes {
                    length: 0,
                    place: 0,
                    character: 0,
                },
            };
        }
        Report {
            verdict,
            bits,
            expected,
            number: stream.number,
            line: stream.lines,
            notes: stream.line.notes,
        }
    }
}
