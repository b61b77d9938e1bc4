// The taking call. It asks nothing of its caller: it refuses by number.
#![tactic(auto)]

ghost use Rattle.std.specs.Prelude.{◌≡◌};
ghost use Rattle.calls.specs.Take.{call, call_result, take_of};

use calls::{Ending, Taken};
use decoder::Decoder;

// Takes bits `first` to `first + count` of the input, one a cycle, and writes their records into the rest of the list from word `free` on. It stops
// after a frame's record, and where fewer than two words are free. An unfit call is rejected with its number, and changes nothing.
pub fn take(
    decoder: Decoder,
    input: &[u8],
    first: usize,
    count: usize,
    store: &mut [u32],
    tray: &mut [u8],
    list: &mut [u64],
    free: usize,
) -> Taken
    ensures { call_result result store.new tray.new list.new
        ≡ take_of decoder (call input.now first count store.old tray.old list.old free) }
{
    if !decoder.sound() {
        return Taken::refused(decoder, Ending::Unsound);
    }
    if !calls::buffers_fit(store, tray, list, free) {
        return Taken::refused(decoder, Ending::WrongBuffers);
    }
    if !bits::range_fits(input, first, count) {
        return Taken::refused(decoder, Ending::WrongRange);
    }
    if Decoder::CLOCK_LIMIT - decoder.next < count as u64 {
        return Taken::refused(decoder, Ending::ClockOver);
    }
    call_loop::run(decoder, input, first, count, store, tray, list, free)
}
