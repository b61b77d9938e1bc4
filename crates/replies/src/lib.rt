// The reply on the line back from the controller: its header, and behind it the data bits, each of eight cycles.
#![tactic(auto)]

ghost use Rattle.std.specs.Prelude.{◌≡◌, true, ◌<◌, ◌≤◌, length};
ghost use Rattle.bits.specs.Bits.{bits_of};
ghost use Rattle.bits.specs.Range.{range_fits};
ghost use Rattle.replies.specs.Replies.{most_bits, reply_number, reply_verdict, reply_bits, reply_result, reply_of};
ghost use Rattle.replies.specs.Answers.{said, refused, answered};
ghost use Rattle.replies.specs.Reception.{received, start, is_whole, hunted_of, onwards, counted_of, step_of, after_of, said_of, Fits};

use bits::Cursor;

// What is said of a reply.
#[derive(Clone, Copy, Debug, PartialEq, Eq)]
pub enum Reply {
    Whole,
    NoHeader,
    CutShort { bits: u32 },
}

// The refusal of a call.
#[derive(Clone, Copy, Debug, PartialEq, Eq)]
pub enum ReplyError {
    WrongExpected,
    WrongBuffer,
    WrongRange,
}

// The most data bits that may be expected.
pub const MOST_BITS: u64 = 8191;

const HEADER: u8 = 0b11101;

impl ReplyError {
    // The refusal number.
    pub fn number(self) -> u8
        ensures { result ≡ reply_number (refused self) }
    {
        match self {
            ReplyError::WrongExpected => 18,
            ReplyError::WrongBuffer => 19,
            ReplyError::WrongRange => 5,
        }
    }
}

impl Reply {
    // Which of the three answers.
    pub fn verdict(self) -> u8
        ensures { result ≡ reply_verdict (said self) }
    {
        match self {
            Reply::Whole => 0,
            Reply::NoHeader => 1,
            Reply::CutShort { .. } => 2,
        }
    }

    // The complete bits of a reply of which so many are expected.
    pub fn bits(self, expected: u64) -> u64
        ensures { result ≡ reply_bits expected (said self) }
    {
        match self {
            Reply::Whole => expected,
            Reply::NoHeader => 0,
            Reply::CutShort { bits } => bits as u64,
        }
    }
}

// A reply under way. The definitions (`hunted_of`, `counted_of`, `said_of`) name its fields, so its two phases are no enum.
#[derive(Clone, Copy)]
pub struct Reception {
    // The cycles of all data bits that are expected.
    pub total: u32,
    // The last five bits, the latest lowest, up to the header; and whether it has come.
    pub window: u8,
    pub found: bool,
    // What is held of an unfinished group behind it, and how many cycles came there.
    pub group: u8,
    pub cycles: u32,
}

impl Reception {
    // Ahead of the first bit.
    pub fn start(bits: u32) -> Reception
        requires { bits ≤ most_bits }
        ensures { result ≡ start bits }
    {
        Reception {
            total: 8 * bits,
            window: 0,
            found: false,
            group: 0,
            cycles: 0,
        }
    }

    // Whether all data bits that are expected have come.
    pub fn is_whole(self) -> bool
        ensures { result ≡ is_whole self }
    {
        self.found && self.cycles == self.total
    }

    // One bit more while the header has not come.
    fn hunt(self, bit: u8) -> Reception
        requires { bit < 2 }
        ensures { result ≡ hunted_of self bit }
    {
        let window = windows::window_with(self.window, bit);
        Reception {
            window,
            found: window == HEADER,
            group: 0,
            cycles: 0,
            ..self
        }
    }

    // One cycle on behind the header, with what is held of a group then.
    fn onwards(self, group: u8) -> Reception
        requires { self.cycles < 65536 }
        ensures { result ≡ onwards self group }
    {
        Reception {
            found: true,
            group,
            cycles: self.cycles + 1,
            ..self
        }
    }

    // One bit more behind the header. The eighth of a group decides a data bit, which goes into the buffer.
    fn count(self, bit: u8, buffer: &mut [u8]) -> Reception
        requires { (bit < 2) × (self.cycles < 65536) }
        ensures { received result buffer.new ≡ counted_of (received self buffer.old) bit }
    {
        let group = groups::held_with(self.group, bit);
        if self.cycles % 8 == 7 {
            frames::store_bit(buffer, self.cycles / 8, groups::vote(group) as u32);
            return self.onwards(0);
        }
        self.onwards(group)
    }

    // One bit more.
    fn step(self, bit: u8, buffer: &mut [u8]) -> Reception
        requires { (bit < 2) × (self.cycles < 65536) }
        ensures { received result buffer.new ≡ step_of (received self buffer.old) bit }
    {
        if self.found {
            return self.count(bit, buffer);
        }
        self.hunt(bit)
    }

    // So many bits more of an input, up to the last that is expected.
    pub fn receive(self, input: &[u8], first: usize, count: usize, buffer: &mut [u8]) -> Reception
        requires { (range_fits (length input.now) first count ≡ true) × Fits self }
        ensures buffer_after { received result buffer.new ≡ after_of (received self buffer.old) (bits_of input.now first count) }
        ensures fits { Fits result }
    {
        let mut at = Cursor::at(first);
        let mut state = self;
        // The cursor goes on beside it: a place made a byte and a bit anew would cost a shift and a mask for each bit.
        for _ in 0..count {
            if state.is_whole() {
                return state;
            }
            state = state.step(at.read(input), buffer);
            at = at.next();
        }
        state
    }

    // What is said if the line ends here.
    pub fn reply(self) -> Reply
        ensures { said result ≡ said_of self }
    {
        if !self.found {
            return Reply::NoHeader;
        }
        if self.cycles == self.total {
            return Reply::Whole;
        }
        Reply::CutShort {
            bits: self.cycles / 8,
        }
    }
}

// The reply in a range of the input, of so many data bits, which go into the buffer.
pub fn read_reply(
    input: &[u8],
    first: usize,
    count: usize,
    expected: u64,
    buffer: &mut [u8],
) -> Result<Reply, ReplyError>
    ensures { reply_result (answered result) buffer.new ≡ reply_of input.now first count expected buffer.old }
{
    if !(1..=MOST_BITS).contains(&expected) {
        return Err(ReplyError::WrongExpected);
    }
    let bits = expected as u32;
    if buffer.len() < bits.div_ceil(8) as usize {
        return Err(ReplyError::WrongBuffer);
    }
    if !bits::range_fits(input, first, count) {
        return Err(ReplyError::WrongRange);
    }
    let state = Reception::start(bits).receive(input, first, count, buffer);
    Ok(state.reply())
}
