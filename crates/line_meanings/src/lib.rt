// The hexadecimal lines of an input, which may be of any length and may come in blocks: what one means, and a line as far as it is read.
#![tactic(auto)]

ghost use Rattle.std.specs.Prelude.{◌≡◌};
ghost use Rattle.line_meanings.specs.Line.{fault_number};
ghost use Rattle.line_meanings.specs.Lines.{empty_line, answer_of, no_characters};

// Why a hexadecimal line is refused: a character is no digit, or the count of digits is odd or above the limit.
#[derive(Clone, Copy, PartialEq, Eq)]
pub enum LineFault {
    WrongCharacter,
    WrongLength,
}

impl LineFault {
    // The number of the refusal.
    pub fn number(self) -> u8
        ensures { result ≡ fault_number self }
    {
        match self {
            LineFault::WrongCharacter => 7,
            LineFault::WrongLength => 8,
        }
    }
}

// The most digits of a line.
pub const DIGIT_LIMIT: usize = 64;

// The bytes that they stand for.
pub const LINE_BYTES: usize = 32;

// What the message of a refusal tells of a line: its length so far, and of the first character that is no digit the place, from 1, and the character
// itself. The place is 0 while there is none, and no Option: a message is a text of any notes, and so needs a place there too.
#[derive(Clone, Copy)]
pub struct LineNotes {
    pub length: u64,
    pub place: u64,
    pub character: u8,
}

// A line as far as it is read; it may be of any length.
#[derive(Clone, Copy)]
pub struct LineSoFar {
    // Whether a character was none of 0-9 and A-F.
    pub wrong: bool,
    // The count of digits; 65 stands for any count above 64.
    pub digits: usize,
    // Their bytes, of two digits each, from the first on.
    pub bytes: [u8; LINE_BYTES],
    pub notes: LineNotes,
}

// What a scan of a block leaves: the line so far, the place in the block after what was scanned, and whether a line feed completed the line.
#[derive(Clone, Copy)]
pub struct Scanned {
    pub line: LineSoFar,
    pub next: usize,
    pub complete: bool,
}

impl LineSoFar {
    // No characters yet, as a line begins.
    pub fn empty() -> LineSoFar
        ensures { result ≡ empty_line }
    {
        let notes = LineNotes {
            length: 0,
            place: 0,
            character: 0,
        };
        LineSoFar {
            wrong: false,
            digits: 0,
            bytes: [0; LINE_BYTES],
            notes,
        }
    }

    // What the line means if it ends here: so many bytes, the first of `bytes`, or why it is refused.
    #[tactic(auto, unfolding(crate::specs::Lines::answer_of))]
    pub fn answer(self) -> Result<usize, LineFault>
        ensures { result ≡ answer_of self }
    {
        if self.wrong {
            return Err(LineFault::WrongCharacter);
        }
        if self.digits % 2 == 0 && self.digits <= DIGIT_LIMIT {
            return Ok(self.digits / 2);
        }
        Err(LineFault::WrongLength)
    }

    // Whether there are no characters yet: at the end of the input that is no line.
    pub fn is_empty(self) -> bool
        ensures { result ≡ no_characters self }
    {
        !self.wrong && self.digits == 0
    }
}
