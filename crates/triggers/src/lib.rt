// What an LV1, a Fast and a bad Fast do to the counters, warnings and FIFO pointers, and their records.
#![tactic(auto)]

ghost use Rattle.std.specs.Prelude.{◌≡◌, ◌<◌};
ghost use Rattle.records.specs.Records.{record_of};
ghost use Rattle.triggers.specs.Triggers.{recorded, bunch_of, lv1_of, fast_of, bad_fast_of};

use plans::Plan;
use records::{Cycle, KIND_BAD_FAST, KIND_FAST, KIND_LV1, Record};
use registers::{Counters, Model, Pointers};

// What a request leaves: the model, and what its cycle answers.
#[derive(Clone, Copy)]
pub struct Acted {
    pub model: Model,
    pub cycle: Cycle,
}

// The flags of a record, which are added; `timing` adds one more, 0x20.
pub const FLAG_ACTED: u8 = 0x01;

const FLAG_FLIP: u8 = 0x02;

const FLAG_SENT: u8 = 0x04;

// A model with its record.
pub fn answer(model: Model, time: u64, kind: u8, flags: u8, value: u64) -> Acted
    ensures { result ≡ recorded model (record_of time kind flags value) }
{
    Acted {
        model: model,
        cycle: Cycle::Recorded {
            entry: Record {
                time: time,
                kind: kind,
                flags: flags,
                value: value,
            },
        },
    }
}

fn bunch(counters: Counters, time: u64) -> u64
    ensures { result ≡ bunch_of counters time }
{
    if time < counters.base {
        return 0;
    }
    (time - counters.base) % 256
}

pub fn lv1(model: Model, plan: Plan, position: u8, time: u64) -> Acted
    ensures { result ≡ lv1_of plan model position time }
{
    let flip = 0 < position;
    let high = position as u64 * 65536;
    let mut m = model;
    let mut warnings = model.warnings;
    warnings.wlv1 = warnings.wlv1 | flip;
    m.warnings = warnings;
    let flipped = registers::flag(flip, FLAG_FLIP);
    if !model.running {
        return answer(m, time, KIND_LV1, flipped, high);
    }
    let csr = model.register(plan.csr);
    let sent = registers::flag(csr / 64 % 2 == 0, FLAG_SENT);
    let mut counters = model.counters;
    let low = counters.l1id as u64 * 256 + bunch(counters, time);
    counters.l1id = ((counters.l1id as u16 + 1) % 256) as u8;
    m.counters = counters;
    answer(m, time, KIND_LV1, FLAG_ACTED + flipped + sent, high + low)
}

pub fn fast(model: Model, body: u8, time: u64) -> Acted
    requires { body < 16 }
    ensures { result ≡ fast_of model body time }
{
    let kind = KIND_FAST + body;
    if !model.running {
        return answer(model, time, kind, 0, 0);
    }
    let mut m = model;
    let mut counters = model.counters;
    if body == 0b0001 {
        counters.base = time;
        m.counters = counters;
        return answer(m, time, kind, FLAG_ACTED, 0);
    }
    if body == 0b0010 {
        counters.l1id = 0;
        m.counters = counters;
        let pointers = Pointers {
            writes: [0u8; 16],
            reads: [0u8; 16],
        };
        m.pointers = pointers;
        return answer(m, time, kind, FLAG_ACTED, 0);
    }
    answer(model, time, kind, FLAG_ACTED, 0)
}

pub fn bad_fast(model: Model, body: u8, time: u64) -> Acted
    ensures { result ≡ bad_fast_of model body time }
{
    let mut m = model;
    let mut warnings = model.warnings;
    warnings.wfst = true;
    m.warnings = warnings;
    answer(m, time, KIND_BAD_FAST, 0, body as u64)
}
