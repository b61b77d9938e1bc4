// The check of a finished stream of trigger and fast commands: one pass, bit by bit, which may go on from part to part of a stream.
#![tactic(auto)]

ghost use Rattle.std.specs.Prelude.{◌≡◌, true, [], ◌∷◌, ◌/◌, ◌^◌, ◌<◌, ◌≤◌, length};
ghost use Rattle.limits.specs.Limits.{clock_limit};
ghost use Rattle.bits.specs.Bits.{bits_of};
ghost use Rattle.bits.specs.Range.{range_fits};
ghost use Rattle.patterns.specs.Verdicts.{accept_of};
ghost use Rattle.patterns.specs.Answers.{answered};
ghost use Rattle.acceptance.specs.Progress.{Reads, UnderWay, WidthBy, CompletedBy, progress, start, reached, Fits, After, verdict_on};

use bits::Cursor;
use patterns::StreamFault;
use records::{KIND_FAST, KIND_LV1};

// What the bits of a pattern so far are: the beginning of a command, a whole one by the kind of its record, or neither.
#[derive(Clone, Copy)]
enum Reading {
    Begun,
    Whole { kind: u8 },
    Unknown,
}

// How far a stream is accepted. The kind and the number keep 0 for none, as the definitions (`progress`, `zeros_asked`, `fault_at`) take them.
#[derive(Clone, Copy)]
pub struct Progress {
    // The place of the first bit that is not accepted yet: the first of the pattern under way, or the next one.
    pub place: u64,
    // The zeros ahead of it, since the command before.
    pub zeros: u64,
    // The kind of that command's record, 0 for none.
    pub last: u8,
    // The bits of the pattern under way as a number, the first highest; 0 for none.
    pub pattern: u16,
    // The number of a refusal, if the pattern at this place is at fault; 0 for none.
    pub fault: u8,
}

// The refusal numbers of a pattern, but for one that the stream's end cuts.
const UNKNOWN: u8 = 13;

const TOO_CLOSE: u8 = 15;

// The beginnings of commands of at most five bits, each as the bit of its own number: 1, 11, 111, 1110 of LV1, and 10, 101, 1011, 10110 of a Fast.
const BEGINNINGS: u32 = 1 << 0b1
    | 1 << 0b11
    | 1 << 0b111
    | 1 << 0b1110
    | 1 << 0b10
    | 1 << 0b101
    | 1 << 0b1011
    | 1 << 0b10110;

// What a pattern is with one bit more than the beginning of a command. Behind the header, which has three ones, a body has one.
fn read_pattern(pattern: u16) -> Reading
    requires { (0 < pattern) × (pattern < 512) × UnderWay (pattern / 2) }
    ensures { Reads pattern result }
{
    if pattern < 32 {
        if pattern == 0b11101 {
            return Reading::Whole { kind: KIND_LV1 };
        }
        if (BEGINNINGS >> pattern as u32) & 1 == 1 {
            return Reading::Begun;
        }
        return Reading::Unknown;
    }
    let ones = pattern.count_ones();
    if pattern < 256 {
        if ones <= 4 {
            return Reading::Begun;
        }
        return Reading::Unknown;
    }
    if ones == 4 {
        return Reading::Whole {
            kind: KIND_FAST + (pattern & 15) as u8,
        };
    }
    Reading::Unknown
}

// The bits of a command, by the kind of its record.
fn width(kind: u8) -> u64
    ensures { WidthBy kind result × (result ≤ 9) }
{
    if kind == KIND_LV1 { 5 } else { 9 }
}

impl Progress {
    // Ahead of a stream's first bit.
    pub fn start() -> Progress
        ensures { result ≡ start }
    {
        Progress {
            place: 0,
            zeros: 0,
            last: 0,
            pattern: 0,
            fault: 0,
        }
    }

    // The pattern at this place is at fault.
    fn refused(self, number: u8) -> Progress
        ensures { result ≡ progress self.place self.zeros self.last 0 number }
    {
        Progress {
            pattern: 0,
            fault: number,
            ..self
        }
    }

    // A whole command at this place: in time, or too close to the one before.
    fn completed(self, kind: u8) -> Progress
        requires { self.place < 2 ^ 62 }
        ensures { CompletedBy self kind result }
    {
        if self.zeros < timing::zeros_asked(self.last, kind) as u64 {
            return self.refused(TOO_CLOSE);
        }
        Progress {
            place: self.place + width(kind),
            zeros: 0,
            last: kind,
            pattern: 0,
            fault: 0,
        }
    }

    // One bit more.
    fn step(self, bit: u8) -> Progress
        requires { (bit < 2) × (self.place < 2 ^ 62) × (self.fault ≡ 0) × Fits self }
        ensures { After self (bit ∷ []) result }
    {
        let pattern = self.pattern * 2 + bit as u16;
        if pattern == 0 {
            return Progress {
                place: self.place + 1,
                zeros: self.zeros + 1,
                ..self
            };
        }
        match read_pattern(pattern) {
            Reading::Begun => Progress { pattern, ..self },
            Reading::Whole { kind } => self.completed(kind),
            Reading::Unknown => self.refused(UNKNOWN),
        }
    }

    // So many bits more of an input, up to a pattern at fault.
    pub fn check(self, input: &[u8], first: usize, count: usize) -> Progress
        requires { (range_fits (length input.now) first count ≡ true) × (reached self ≤ clock_limit) × Fits self }
        ensures { After self (bits_of input.now first count) result }
    {
        let mut at = Cursor::at(first);
        let mut progress = self;
        // The cursor goes on beside it: a place made a byte and a bit anew would cost a shift and a mask for each bit.
        for _ in 0..count {
            if progress.fault != 0 {
                return progress;
            }
            progress = progress.step(at.read(input));
            at = at.next();
        }
        progress
    }

    // What is said of the stream if it ends here.
    pub fn verdict(self) -> Result<(), StreamFault>
        requires { Fits self }
        ensures { answered result ≡ verdict_on self [] }
    {
        let place = self.place;
        if self.fault == UNKNOWN {
            return Err(StreamFault::Unknown { place });
        }
        if self.fault != 0 {
            return Err(StreamFault::TooClose { place });
        }
        if self.pattern != 0 {
            return Err(StreamFault::Cut { place });
        }
        Ok(())
    }
}

// Whether a range of the input is a stream of zeros and whole, exact commands in time.
pub fn accept(input: &[u8], first: usize, count: usize) -> Result<(), StreamFault>
    ensures { answered result ≡ accept_of input.now first count }
{
    if !bits::range_fits(input, first, count) {
        return Err(StreamFault::WrongRange);
    }
    let progress = Progress::start().check(input, first, count);
    progress.verdict()
}
