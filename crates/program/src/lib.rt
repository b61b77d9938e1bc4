// A program's run but for its reads and writes: from the characters of hexadecimal lines to the text of their listing.
#![tactic(auto)]

ghost use Rattle.std.specs.Prelude.{◌≡◌, ◌+◌, ◌<◌, ◌≤◌, true, false, length};
ghost use Rattle.limits.specs.Limits.{store_length};
ghost use Rattle.output.specs.Block.{block_length, block, put_all};
ghost use Rattle.program.specs.Listing.{state_lines};
ghost use Rattle.program.specs.RunState.{start, can_step, EndsLine, ScansLine};
ghost use Rattle.program.specs.RunState.{message_of, clock_number, wants_input, received_of, received_block};

use decoder::Decoder;
use line_meanings::LineSoFar;
use plans::Plan;

// What a program prints beside the records: the frames, and at the end of the run the controller as the commands left it.
#[derive(Clone, Copy)]
pub struct PrintOptions {
    pub frames: bool,
    pub state: bool,
}

// The state of a run under way, but for its buffers.
#[derive(Clone, Copy)]
pub struct RunState {
    pub decoder: Decoder,
    // The present line so far, or the line that was refused, and how many lines have ended.
    pub line: LineSoFar,
    pub lines: u64,
    // Of the line that ended last: its bytes, the first of its bits that is not taken yet, and how many are left.
    pub bytes: [u8; line_meanings::LINE_BYTES],
    pub first: usize,
    pub count: usize,
    // Of the block of input: the places after what is scanned, and after what a read brought. Of the block of output: the place after what is put.
    pub next: usize,
    pub length: usize,
    pub filled: usize,
    // Whether the input has ended, and whether the run has: at a refusal, or after the input's end. The refusal's number, 0 for none, as the definitions of
    // a run's outcome have it.
    pub eof: bool,
    pub over: bool,
    pub number: u8,
}

// The words of a taking call's list: 16 records.
pub const LIST_WORDS: usize = 32;

// The most bytes that a step puts into the block of output: a record's line has 28 bytes, 14 for each of its words; a frame's has two for each byte of
// the tray, and two more.
const STEP_ROOM: usize = 14 * LIST_WORDS + (2 * Decoder::TRAY_LENGTH + 2);

// The refusal of a taking call of a line's bits, by the bits that it took: only one at the clock's end takes none.
pub fn clock_number(bits: usize) -> u8
    ensures { result ≡ clock_number bits }
{
    if bits == 0 { 6 } else { 0 }
}

impl RunState {
    // Opens with the default plan at cycle 0.
    pub fn start() -> RunState
        ensures { result ≡ start }
    {
        let opened = Decoder::start(Plan::default_plan(), 0);
        let decoder = opened.decoder;
        RunState {
            decoder: decoder,
            line: LineSoFar::empty(),
            lines: 0,
            bytes: [0; line_meanings::LINE_BYTES],
            first: 0,
            count: 0,
            next: 0,
            length: 0,
            filled: 0,
            eof: false,
            over: false,
            number: 0,
        }
    }

    // The present line has ended: its bits are to be taken, or it is refused and ends the run.
    fn end_line(self, out: &mut [u8]) -> RunState
        ensures { EndsLine self out.old result out.new }
    {
        let line = self.line;
        let mut next = self;
        next.lines = std::num::wrapping_add_u64(self.lines, 1);
        if let Err(fault) = line.answer() {
            let number = fault.number();
            next.filled = layout::refused_line(out, self.filled, number, next.lines);
            next.over = true;
            next.number = number;
            return next;
        }
        next.line = LineSoFar::empty();
        // A digit has four bits.
        let bytes = line.bytes;
        next.bytes = bytes;
        next.first = 0;
        next.count = 4 * line.digits;
        next
    }

    // Scans the block of input up to and with the next line feed.
    pub fn scan_line(self, input: &[u8], out: &mut [u8]) -> RunState
        ensures { ScansLine input.now self out.old result out.new }
    {
        let line = self.line;
        let scanned = line_scans::scan(line, input, self.next);
        let longer = scanned.line;
        let mut next = self;
        next.line = longer;
        next.next = scanned.next;
        if scanned.complete {
            return next.end_line(out);
        }
        next
    }

    // Whether a step is to be made: there is something to do, and room for what it may put.
    #[tactic(auto, unfolding(crate::specs::RunState::can_step))]
    pub fn can_step(self, input: usize, output: usize) -> bool
        requires { self.filled ≤ output }
        ensures { result ≡ can_step input output self }
    {
        let some = (self.count != 0) | (self.next < input);
        let fits = STEP_ROOM <= output - self.filled;
        !self.over & (some & fits)
    }

    // Whether all that the last read brought is listed, and the next is due.
    #[tactic(auto, unfolding(crate::specs::RunState::wants_input))]
    pub fn wants_input(self) -> bool
        ensures { result ≡ wants_input self }
    {
        (self.count == 0) & (self.length <= self.next)
    }

    // What a read brought: `got` characters at the start of the block of input. None is the input's end, which ends a line that has begun, as a line
    // feed does, and then the run.
    #[tactic(auto, unfolding(crate::specs::RunState::received_of))]
    pub fn receive(self, input: &mut [u8], got: usize) -> RunState
        requires { 0 < length input.old }
        ensures value { result ≡ received_of self got }
        ensures input_after { input.new ≡ received_block got input.old }
    {
        let mut next = self;
        next.next = 0;
        next.length = got;
        if got != 0 {
            return next;
        }
        let line = self.line;
        input[0] = output::LINE_FEED;
        next.length = 1;
        next.eof = true;
        next.over = line.is_empty();
        next.number = 0;
        next
    }

    // The lines of the state at the end of a run, if the program prints them; the answer is how many bytes they take.
    #[tactic(auto, unfolding(crate::specs::Listing::state_lines))]
    pub fn put_state_lines(self, prints: PrintOptions, store: &[u32], out: &mut [u8]) -> usize
        requires { (length store.now ≡ store_length) × (length out.old ≡ block_length) }
        ensures { block out.new result ≡ put_all out.old 0 (state_lines prints self.decoder store.now) }
    {
        if !prints.state {
            return 0;
        }
        let decoder = self.decoder;
        state_listing::put_state(out, decoder, store)
    }

    // The message of the refusal that ended a run; the answer is how many bytes it takes.
    pub fn put_message(self, out: &mut [u8]) -> usize
        requires { length out.old ≡ block_length }
        ensures { block out.new result ≡ put_all out.old 0 (message_of self) }
    {
        let line = self.line;
        let notes = line.notes;
        messages::put_sentence(out, 0, self.number, self.lines, notes)
    }
}
