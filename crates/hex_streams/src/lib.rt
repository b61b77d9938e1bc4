// The stream that hexadecimal lines carry: the bits of each line as it ends, up to a line that is refused.
#![tactic(auto)]

ghost use Rattle.std.specs.Prelude.{◌≡◌, ◌<◌, length};
ghost use Rattle.hex_streams.specs.SoFar.{start, refused_at, WellFormed, EndsLine, ReadsOn, EndsInput};

use decoder::Decoder;
use line_meanings::{LINE_BYTES, LineSoFar};

// A stream as far as its lines are read.
#[derive(Clone, Copy)]
pub struct StreamSoFar {
    // The present line so far, or the line that was refused, and how many lines have ended.
    pub line: LineSoFar,
    pub lines: u64,
    // The bits of the lines that have ended.
    pub bits: u64,
    // The number of a refused line, which ends the stream; 0 for none, as the definitions (`so_far`, `stream_end`) take it.
    pub number: u8,
}

// More of it: the stream then; the bits of a line that has ended, the first `count` of its bytes' bits, none while no line has; and the place in the block
// behind what was read.
#[derive(Clone, Copy)]
pub struct StreamPart {
    pub stream: StreamSoFar,
    pub bytes: [u8; LINE_BYTES],
    pub count: usize,
    pub next: usize,
}

// The refusal number of a line whose bits pass the last clock cycle.
const CLOCK_OVER: u8 = 6;

impl StreamSoFar {
    // Ahead of the first character.
    pub fn start() -> StreamSoFar
        ensures { result ≡ start }
    {
        StreamSoFar {
            line: LineSoFar::empty(),
            lines: 0,
            bits: 0,
            number: 0,
        }
    }

    // A line is refused, and ends the stream.
    fn refused(self, line: LineSoFar, lines: u64, number: u8, next: usize) -> StreamPart
        ensures { result ≡ refused_at self line lines number next }
    {
        let bytes = line.bytes;
        StreamPart {
            stream: StreamSoFar {
                line,
                lines,
                number,
                ..self
            },
            bytes,
            count: 0,
            next,
        }
    }

    // The present line has ended: its bits, or its refusal.
    fn end_line(self, next: usize) -> StreamPart
        requires { WellFormed self }
        ensures { EndsLine self next result }
    {
        let line = self.line;
        let lines = self.lines.wrapping_add(1);
        if let Err(fault) = line.answer() {
            return self.refused(line, lines, fault.number(), next);
        }
        // A digit has four bits.
        let count = 4 * line.digits;
        if Decoder::CLOCK_LIMIT - self.bits < count as u64 {
            return self.refused(LineSoFar::empty(), lines, CLOCK_OVER, next);
        }
        let bytes = line.bytes;
        StreamPart {
            stream: StreamSoFar {
                line: LineSoFar::empty(),
                lines,
                bits: self.bits + count as u64,
                number: 0,
            },
            bytes,
            count,
            next,
        }
    }

    // More characters of a block, up to and with the next line feed, or to the block's end.
    pub fn read_on(self, input: &[u8], at: usize) -> StreamPart
        requires { WellFormed self × (self.number ≡ 0) × (at < length input.now) }
        ensures { ReadsOn self input.now at result }
    {
        let scanned = line_scans::scan(self.line, input, at);
        let line = scanned.line;
        let bytes = line.bytes;
        let stream = StreamSoFar {
            line,
            number: 0,
            ..self
        };
        if scanned.complete {
            return stream.end_line(scanned.next);
        }
        StreamPart {
            stream,
            bytes,
            count: 0,
            next: scanned.next,
        }
    }

    // The input has ended, and with it a line that has begun.
    pub fn end_input(self) -> StreamPart
        requires { WellFormed self }
        ensures { EndsInput self result }
    {
        if self.number != 0 || self.line.is_empty() {
            let bytes = self.line.bytes;
            return StreamPart {
                stream: self,
                bytes,
                count: 0,
                next: 0,
            };
        }
        self.end_line(0)
    }
}
