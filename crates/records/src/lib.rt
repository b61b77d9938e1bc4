// A record by its parts, its first word, and what the words of a frame's record say.
#![tactic(auto)]

ghost use Rattle.std.specs.Prelude.{◌≡◌, ◌<◌};
ghost use Rattle.limits.specs.Limits.{clock_limit};
ghost use Rattle.records.specs.Records.{kind_of, head_of, is_frame_head, frame_bits_of};

// The kinds of a record; a Fast and a Slow add their body and Field 3.
pub const KIND_LV1: u8 = 0x01;

pub const KIND_FAST: u8 = 0x10;

pub const KIND_BAD_FAST: u8 = 0x1F;

pub const KIND_SLOW: u8 = 0x20;

pub const KIND_BAD_SLOW: u8 = 0x2F;

// A record by its parts. Its two words are made where it is written.
#[derive(Clone, Copy)]
pub struct Record {
    pub time: u64,
    pub kind: u8,
    pub flags: u8,
    pub value: u64,
}

impl Record {
    // Its first word. Kind and flags are bytes, so that it fits while the time has 48 bits.
    pub fn head(self) -> u64
        requires { self.time < clock_limit }
        ensures { result ≡ head_of self }
    {
        self.time * 65536 + self.kind as u64 * 256 + self.flags as u64
    }

    // Whether it is a frame's, after which a taking call stops: kind 24, 25 or 26.
    pub fn is_frame(self) -> bool
        ensures { result ≡ is_frame_head (head_of self) }
    {
        (0x24 <= self.kind) & (self.kind <= 0x26)
    }
}

// What one cycle answers: nothing, or a record. An Option was slower (`recogniser::FrameBit`).
#[derive(Clone, Copy)]
pub enum Cycle {
    Silent,
    Recorded { entry: Record },
}

// Whether a record of which only the first word is at hand is a frame's.
pub fn is_frame_head(head: u64) -> bool
    ensures { result ≡ is_frame_head head }
{
    let kind = head / 256 % 256;
    (0x24 <= kind) & (kind <= 0x26)
}

// A frame's count of bits, off the two words of its record.
pub fn frame_bits(head: u64, value: u64) -> usize
    ensures { result ≡ frame_bits_of (kind_of head) value }
{
    if head / 256 % 256 == 0x26 {
        return value as usize;
    }
    (value / 65536 + value % 65536) as usize
}
