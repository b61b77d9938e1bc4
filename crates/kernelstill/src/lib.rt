// The library for hosts that are not written in Rattle: taking, with the state as an image in words.
// `kernelstill_c` exports this function, which include/kernelstill.h declares. It asks nothing of its caller.
#![tactic(auto)]

ghost use Rattle.std.specs.Prelude.{◌≡◌};
ghost use Rattle.calls.specs.Take.{call, take_of};
ghost use Rattle.image_fields.specs.Image.{state_of};
ghost use Rattle.host_opening.specs.Holding.{Holds};
ghost use Rattle.host_results.specs.Take.{take_result, take_result_of};

// The refusal number of a result of another length.
const WRONG_BUFFERS: u64 = 4;

// Taking bits: the image, the store and the tray move on, records go into the list, and the result into three words. The
// image then holds the next state.
pub fn kernelstill_take(
    image: &mut [u64],
    input: &[u8],
    first: usize,
    count: usize,
    store: &mut [u32],
    tray: &mut [u8],
    list: &mut [u64],
    free: usize,
    res: &mut [u64],
) -> u64
    ensures list_after { take_result result image.new res.new store.new tray.new list.new
        ≡ take_result_of image.old res.old
        (call input.now first count store.old tray.old list.old free) }
    ensures holds { result ≡ 0 → Holds image.new (take_of (state_of image.old)
        (call input.now first count store.old tray.old list.old free)).taken.decoder }
{
    if !host_opening::sound_image(image) {
        return host_opening::UNSOUND;
    }
    if res.len() != host_results::RESULT_WORDS {
        return WRONG_BUFFERS;
    }
    let decoder = image_reader::read(image);
    let taken = taking::take(decoder, input, first, count, store, tray, list, free);
    let answer = taken.report;
    let number = answer.ending.number();
    if number != 0 {
        return number;
    }
    host_results::write_result(res, answer);
    image_writer::write(taken.decoder, image);
    0
}
