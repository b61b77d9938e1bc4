// A request performed within a taking call: its effect, and its record in the list.
#![tactic(auto)]

ghost use Rattle.std.specs.Prelude.{◌≡◌, true, false, ◌-◌, ◌<◌, ◌≤◌, length, set};
ghost use Rattle.limits.specs.Limits.{clock_limit, store_length, list_unit};
ghost use Rattle.records.specs.Records.{head_of};
ghost use Rattle.controller.specs.Requests.{request_fits};
ghost use Rattle.registers.specs.Registers.{cnt_of};
ghost use Rattle.timing.specs.TooClose.{earlier_below};
ghost use Rattle.performing.specs.Perform.{perform_result, performed_with, cnt_after, perform_of};

use decoder::Decoder;
use plans::Plan;
use recogniser::Request;
use records::{Cycle, Record};
use registers::Model;
use timing::Earlier;

// Where a call stands once a request is performed: the model with its CNT, the earlier record, the next free word of the list, and whether the call stops
// here.
#[derive(Clone, Copy)]
pub struct Performed {
    pub model: Model,
    pub cnt: u16,
    pub earlier: Earlier,
    pub at: usize,
    pub stops: bool,
}

impl Performed {
    // At a call's start.
    pub fn nothing(decoder: Decoder, free: usize) -> Performed
        ensures { result ≡ performed_with decoder.plan decoder.model decoder.earlier free false }
    {
        let model = decoder.model;
        let plan = decoder.plan;
        let earlier = decoder.earlier;
        Performed {
            model: model,
            cnt: model.cnt(plan),
            earlier: earlier,
            at: free,
            stops: false,
        }
    }
}

// A record's two words at the start of the rest of the list.
fn write_record(rest: &mut [u64], entry: Record)
    requires { (entry.time < clock_limit) × (list_unit ≤ length rest.old) }
    ensures { rest.new ≡ set (set rest.old 0 (head_of entry)) 1 entry.value }
{
    let head = entry.head();
    rest[0] = head;
    rest[1] = entry.value;
}

// CNT after a request, where it was so ahead of it: only a Slow changes a register.
fn cnt_after(model: Model, plan: Plan, request: Request, cnt: u16) -> u16
    ensures { result ≡ cnt_after plan model request cnt }
{
    match request {
        Request::Nothing => cnt,
        Request::Lv1 { position } => cnt,
        Request::Fast { body } => cnt,
        Request::BadFast { body } => cnt,
        Request::Slow { slow } => model.cnt(plan),
    }
}

// Performs a request at its cycle: its effect, and its record in the list, flagged where it is too close to the one before.
pub fn perform(
    from: Performed,
    plan: Plan,
    request: Request,
    time: u64,
    store: &mut [u32],
    list: &mut [u64],
) -> Performed
    requires time_lt_clock_limit { (time < clock_limit) × (length store.old ≡ store_length) × (request_fits request ≡ true) × (list_unit ≤ length list.old - from.at) }
    requires clock_limit_value { (earlier_below from.earlier clock_limit ≡ true) × (from.cnt ≡ cnt_of plan from.model) }
    ensures { perform_result result store.new list.new
        ≡ perform_of plan from request time store.old list.old }
{
    let at = from.at;
    let model = from.model;
    let acted = controller::act(model, plan, request, time, store);
    let m = acted.model;
    let cnt = cnt_after(m, plan, request, from.cnt);
    let cycle = acted.cycle;
    let earlier = from.earlier;
    let Cycle::Recorded { entry } = cycle else {
        return Performed {
            model: m,
            cnt: cnt,
            earlier: earlier,
            at: at,
            stops: false,
        };
    };
    let told = earlier.flagged(entry, from.cnt);
    write_record(&mut list[at..], told);
    Performed {
        model: m,
        cnt: cnt,
        earlier: Earlier::of(told),
        at: at + Decoder::LIST_UNIT,
        stops: told.is_frame(),
    }
}
