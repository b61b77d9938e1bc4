// What a taking call is made of but for its requests: its refusals and its answer. The loop over the bits is in `call_loop`, the call itself in `taking`.
#![tactic(auto)]

ghost use Rattle.std.specs.Prelude.{◌≡◌, ◌+◌, ◌-◌, ◌/◌, ◌≤◌, length};
ghost use Rattle.limits.specs.Limits.{clock_limit, list_unit};
ghost use Rattle.calls.specs.Take.{taken_with, decoder_after, buffers_fit, ending_number};

use decoder::Decoder;
use performing::Performed;
use recogniser::Recogniser;

// How a taking call ends; the last four are its refusals, numbers 3 to 6.
#[derive(Clone, Copy)]
pub enum Ending {
    Done,
    Frame,
    ListFull,
    Unsound,
    WrongBuffers,
    WrongRange,
    ClockOver,
}

impl Ending {
    // The refusal's number, 0 for none.
    pub fn number(self) -> u64
        ensures { result ≡ ending_number self }
    {
        match self {
            Ending::Done => 0,
            Ending::Frame => 0,
            Ending::ListFull => 0,
            Ending::Unsound => 3,
            Ending::WrongBuffers => 4,
            Ending::WrongRange => 5,
            Ending::ClockOver => 6,
        }
    }
}

// What a taking call reports beside the state: bits taken, records written, and its ending.
#[derive(Clone, Copy)]
pub struct Report {
    pub bits: usize,
    pub records: usize,
    pub ending: Ending,
}

#[derive(Clone, Copy)]
pub struct Taken {
    pub decoder: Decoder,
    pub report: Report,
}

// Whether a call's store, tray and first free word are fit, by their lengths.
pub fn buffers_fit(store: &[u32], tray: &[u8], list: &[u64], free: usize) -> bool
    ensures { result ≡ buffers_fit (length store.now) (length tray.now) (length list.now) free }
{
    let store_fits = store.len() == Decoder::STORE_LENGTH;
    let tray_fits = tray.len() == Decoder::TRAY_LENGTH;
    store_fits & (tray_fits & (free <= list.len()))
}

impl Taken {
    // A refused call: the state as it came, and nothing taken.
    pub fn refused(decoder: Decoder, ending: Ending) -> Taken
        ensures { result ≡ taken_with decoder 0 0 ending }
    {
        Taken {
            decoder: decoder,
            report: Report {
                bits: 0,
                records: 0,
                ending: ending,
            },
        }
    }

    // A call at its end: the state that the loop's locals make up, the bits taken, and the list filled up to a word.
    pub fn ended(
        decoder: Decoder,
        recogniser: Recogniser,
        done: Performed,
        taken: usize,
        free: usize,
        ending: Ending,
    ) -> Taken
        requires { (decoder.next + taken ≤ clock_limit) × (free ≤ done.at) }
        ensures { result ≡ taken_with (decoder_after decoder recogniser done.model done.earlier taken) taken ((done.at - free) / list_unit) ending }
    {
        let plan = decoder.plan;
        let model = done.model;
        let earlier = done.earlier;
        Taken {
            decoder: Decoder {
                plan: plan,
                next: decoder.next + taken as u64,
                recogniser: recogniser,
                model: model,
                earlier: earlier,
            },
            report: Report {
                bits: taken,
                records: (done.at - free) / Decoder::LIST_UNIT,
                ending: ending,
            },
        }
    }
}
