// A program's exit status.
#![tactic(auto)]

ghost use Rattle.std.specs.Prelude.{◌≡◌};
ghost use Rattle.statuses.specs.Status.{IsStatus, number_of};

// It did what it is asked for; it did not, as where a line is refused; wrong words; the system failed.
#[derive(Clone, Copy, Debug, PartialEq, Eq)]
pub enum Status {
    Whole,
    Refused,
    WrongWords,
    Failed,
}

impl Status {
    // What the shell is answered.
    pub fn number(self) -> u8
        ensures value { result ≡ number_of self }
        ensures few { IsStatus result }
    {
        match self {
            Status::Whole => 0,
            Status::Refused => 1,
            Status::WrongWords => 2,
            Status::Failed => 3,
        }
    }
}
