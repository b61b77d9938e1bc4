// Why a finished stream of trigger and fast commands is refused: its range, or a pattern at fault, by number and place.
#![tactic(auto)]

ghost use Rattle.std.specs.Prelude.{◌≡◌};
ghost use Rattle.patterns.specs.Verdicts.{verdict_number, verdict_place};
ghost use Rattle.patterns.specs.Answers.{refused};

// A place is that of the first bit of the pattern at fault, counted from 0 at the stream's first bit.
#[derive(Clone, Copy, Debug, PartialEq, Eq)]
pub enum StreamFault {
    WrongRange,
    Unknown { place: u64 },
    Cut { place: u64 },
    TooClose { place: u64 },
}

impl StreamFault {
    // The refusal number.
    pub fn number(self) -> u8
        ensures { result ≡ verdict_number (refused self) }
    {
        match self {
            StreamFault::WrongRange => 5,
            StreamFault::Unknown { .. } => 13,
            StreamFault::Cut { .. } => 14,
            StreamFault::TooClose { .. } => 15,
        }
    }

    // The first bit of the pattern at fault; 0 where there is none.
    pub fn place(self) -> u64
        ensures { result ≡ verdict_place (refused self) }
    {
        match self {
            StreamFault::WrongRange => 0,
            StreamFault::Unknown { place }
            | StreamFault::Cut { place }
            | StreamFault::TooClose { place } => place,
        }
    }
}
