// The state that is kept between calls: opening it, and whether a state is sound.
#![tactic(auto)]

ghost use Rattle.std.specs.Prelude.{◌≡◌};
ghost use Rattle.decoder.specs.Opening.{opened_at, open_of, opening_number};
ghost use Rattle.decoder.specs.Sound.{inside_slow, sound_of};

use plans::Plan;
use recogniser::{Phase, Recogniser};
use registers::Model;
use timing::Earlier;

// The whole state: nothing else is kept between calls.
#[derive(Clone, Copy)]
pub struct Decoder {
    pub plan: Plan,
    // The number of the next cycle.
    pub next: u64,
    pub recogniser: Recogniser,
    pub model: Model,
    // The earlier record, which says whether the next one is too close to it.
    pub earlier: Earlier,
}

// How an opening ends: accepted, or refused with number 1 or 2.
#[derive(Clone, Copy)]
pub enum Opening {
    Accepted,
    WrongPlan,
    WrongCycle,
}

impl Opening {
    // The refusal's number, 0 for none.
    pub fn number(self) -> u64
        ensures { result ≡ opening_number self }
    {
        match self {
            Opening::Accepted => 0,
            Opening::WrongPlan => 1,
            Opening::WrongCycle => 2,
        }
    }
}

#[derive(Clone, Copy)]
pub struct Opened {
    pub decoder: Decoder,
    pub opening: Opening,
}

// Whether RunMode must be off in this phase.
fn inside_slow(phase: Phase) -> bool
    ensures { result ≡ inside_slow phase }
{
    matches!(phase, Phase::Field3 | Phase::Field4 | Phase::Field5)
}

impl Decoder {
    // Cycles are numbered below it.
    pub const CLOCK_LIMIT: u64 = 281474976710656;
    // The words of the FIFO store, and the bytes of the tray.
    pub const STORE_LENGTH: usize = 2048;

    pub const TRAY_LENGTH: usize = 8192;
    // The words of a record in the list.
    pub const LIST_UNIT: usize = 2;

    // The start state of a plan at a cycle.
    fn opened_at(plan: Plan, cycle: u64) -> Decoder
        ensures { result ≡ opened_at plan cycle }
    {
        Decoder {
            plan,
            next: cycle,
            recogniser: Recogniser::start(Phase::Hunt, 0, 0, 0),
            model: Model::cleared(false, cycle),
            earlier: Earlier::none(),
        }
    }

    // Opening: the start state of the plan at the cycle; refused, the default start state at cycle 0.
    #[tactic(auto, unfolding(crate::specs::Opening::open_of))]
    pub fn start(plan: Plan, cycle: u64) -> Opened
        ensures { result ≡ open_of plan cycle }
    {
        if !plan.fits() {
            return Opened {
                decoder: Decoder::opened_at(Plan::default_plan(), 0),
                opening: Opening::WrongPlan,
            };
        }
        if Decoder::CLOCK_LIMIT <= cycle {
            return Opened {
                decoder: Decoder::opened_at(Plan::default_plan(), 0),
                opening: Opening::WrongCycle,
            };
        }
        Opened {
            decoder: Decoder::opened_at(plan, cycle),
            opening: Opening::Accepted,
        }
    }

    // Whether the state is sound; a taking call rejects any other.
    #[tactic(auto, unfolding(crate::specs::Sound::sound_of))]
    pub fn sound(self) -> bool
        ensures { result ≡ sound_of self }
    {
        let model = self.model;
        self.plan.fits()
            && self.next <= Decoder::CLOCK_LIMIT
            && model.counters.base <= self.next
            && self.earlier.is_below(self.next)
            && registers::pointers_fit(model.pointers.writes)
            && registers::pointers_fit(model.pointers.reads)
            && model.missing_zero(self.plan)
            && !(inside_slow(self.recogniser.phase) && model.running)
            && fit_recognisers::fit(self.recogniser, model.cnt(self.plan))
    }
}
