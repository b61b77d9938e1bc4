// A taking call that is not refused: the loop over the bits.
#![tactic(auto)]

ghost use Rattle.std.specs.Prelude.{◌≡◌, true, ◌+◌, ◌*◌, ◌≤◌, length};
ghost use Rattle.limits.specs.Limits.{clock_limit, store_length, input_limit};
ghost use Rattle.timing.specs.TooClose.{earlier_below};
ghost use Rattle.calls.specs.Take.{call, call_result, taken_of};

use bits::Cursor;
use calls::{Ending, Taken};
use decoder::Decoder;
use performing::Performed;
use recogniser::Request;

// A call that is not refused, stretch by stretch. Arrays are touched only when a frame bit or a request asks for it.
pub fn run(
    decoder: Decoder,
    input: &[u8],
    first: usize,
    count: usize,
    store: &mut [u32],
    tray: &mut [u8],
    list: &mut [u64],
    free: usize,
) -> Taken
    requires count_bound { (decoder.next + count ≤ clock_limit) × (length store.old ≡ store_length) × (earlier_below decoder.earlier decoder.next ≡ true) }
    requires input_len_bound { (length input.now ≤ input_limit) × (first + count ≤ 8 * length input.now) × (free ≤ length list.old) }
    ensures { call_result result store.new tray.new list.new
        ≡ taken_of decoder (call input.now first count store.old tray.old list.old free) }
{
    let plan = decoder.plan;
    let mut recogniser = decoder.recogniser;
    let mut done = Performed::nothing(decoder, free);
    let mut cursor = Cursor::at(first);
    let mut taken: usize = 0;
    // A turn takes a stretch of many bits, so that no `for` counts them.
    while taken < count {
        if list.len() - done.at < Decoder::LIST_UNIT {
            return Taken::ended(decoder, recogniser, done, taken, free, Ending::ListFull);
        }
        let walk = stretches::advance(recogniser, input, cursor, count - taken, done.cnt);
        cursor = walk.behind;
        recogniser = walk.stretch.next;
        taken = taken + walk.stretch.taken;
        let event = walk.stretch.event;
        let frame = event.frame;
        frames::keep(tray, frame);
        let request = event.request;
        if let Request::Nothing = request {
            continue;
        }
        let time = decoder.next + taken as u64 - 1;
        done = performing::perform(done, plan, request, time, store, list);
        if done.stops {
            return Taken::ended(decoder, recogniser, done, taken, free, Ending::Frame);
        }
    }
    Taken::ended(decoder, recogniser, done, taken, free, Ending::Done)
}
