// The timing table, and whether a record's command was sent too close to the recorded one before it.
#![tactic(auto)]

ghost use Rattle.std.specs.Prelude.{◌≡◌, true, ◌<◌, ◌^◌};
ghost use Rattle.limits.specs.Limits.{clock_limit};
ghost use Rattle.timing.specs.Table.{zeros_asked};
ghost use Rattle.timing.specs.TooClose.{none, earlier_of, earlier_below, cycles_back, too_close, flagged};

use records::{KIND_FAST, KIND_LV1, KIND_SLOW, Record};

// The earlier record: that of the command before, by its time and kind. Kind 0, which no record has, stands for none.
#[derive(Clone, Copy)]
pub struct Earlier {
    pub time: u64,
    pub kind: u8,
}

// The kinds of the Fasts that ask zeros after themselves.
const BCR: u8 = KIND_FAST + 0b0001;

const ECR: u8 = KIND_FAST + 0b0010;

const SYNC: u8 = KIND_FAST + 0b1000;

// The flag of a record too close to the one before it; the controller's flags are below it.
const FLAG_TOO_CLOSE: u8 = 0x20;

// The zeros asked between two commands, by the kinds of their records.
pub fn zeros_asked(kind: u8, next: u8) -> u8
    ensures { result ≡ zeros_asked kind next }
{
    if next == KIND_LV1 {
        return if kind == SYNC { 4 } else { 0 };
    }
    if kind == BCR {
        return 2;
    }
    if kind == ECR { 1 } else { 0 }
}

// How many cycles a command's first bit lies before its last, by the kind of its record.
fn cycles_back(kind: u8, cnt: u16) -> u64
    ensures { (result ≡ cycles_back kind cnt) × (result < 2 ^ 33) }
{
    if kind == KIND_LV1 {
        return 4;
    }
    if kind < KIND_SLOW {
        return 8;
    }
    16 + slow_fields::length(kind - KIND_SLOW, cnt) as u64
}

impl Earlier {
    // After an opening.
    pub fn none() -> Earlier
        ensures { result ≡ none }
    {
        Earlier { time: 0, kind: 0 }
    }

    pub fn of(entry: Record) -> Earlier
        ensures { result ≡ earlier_of entry }
    {
        Earlier {
            time: entry.time,
            kind: entry.kind,
        }
    }

    // Whether its time is below a cycle's number; of no record nothing is asked.
    pub fn is_below(self, cycle: u64) -> bool
        ensures { result ≡ earlier_below self cycle }
    {
        (self.kind == 0) | (self.time < cycle)
    }

    // Whether fewer zeros than asked lie between it and a record, by CNT ahead of that record's effect.
    fn is_too_close(self, entry: Record, cnt: u16) -> bool
        requires { earlier_below self clock_limit ≡ true }
        ensures { result ≡ too_close self entry.time entry.kind cnt }
    {
        if self.kind == 0 {
            return false;
        }
        let length = cycles_back(entry.kind, cnt) + 1;
        entry.time < self.time + length + zeros_asked(self.kind, entry.kind) as u64
    }

    // A record with the flag of one too close to it.
    pub fn flagged(self, entry: Record, cnt: u16) -> Record
        requires { (entry.flags < 0x20) × (earlier_below self clock_limit ≡ true) }
        ensures { result ≡ flagged self cnt entry }
    {
        let close = self.is_too_close(entry, cnt);
        let mut told = entry;
        told.flags = entry.flags + registers::flag(close, FLAG_TOO_CLOSE);
        told
    }
}
