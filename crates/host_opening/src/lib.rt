// The library for hosts that are not written in Rattle: opening, with the state as an image in words, and whether words are such an image.
// `kernelstill_c` exports `kernelstill_open`, which include/kernelstill.h declares. It asks nothing of its caller.
#![tactic(auto)]

ghost use Rattle.std.specs.Prelude.{◌≡◌, length};
ghost use Rattle.decoder.specs.Opening.{open_of};
ghost use Rattle.image_fields.specs.Image.{image_length};
ghost use Rattle.host_plans.specs.Plans.{plan_of};
ghost use Rattle.host_opening.specs.Open.{open_result, open_result_of};
ghost use Rattle.host_opening.specs.Holding.{sound_image, Holds};

use decoder::Decoder;

// The refusal number of what is no image of a sound state.
pub const UNSOUND: u64 = 3;

// Opening: the image then holds the start state; the answer is the refusal number.
pub fn kernelstill_open(
    mask: u64,
    csr: u64,
    feen: u64,
    cnt: u64,
    cycle: u64,
    image: &mut [u64],
) -> u64
    ensures image_after { open_result result image.new ≡ open_result_of mask csr feen cnt cycle image.old }
    ensures holds { length image.old ≡ image_length → Holds image.new (open_of (plan_of mask csr feen cnt) cycle).decoder }
{
    let plan = host_plans::plan_of(mask, csr, feen, cnt);
    let opened = Decoder::start(plan, cycle);
    let number = opened.opening.number();
    if image.len() != image_words::WORDS {
        if number == 0 {
            return UNSOUND;
        }
        return number;
    }
    image_writer::write(opened.decoder, image);
    number
}

// Whether the words are the image of a sound state.
pub fn sound_image(image: &[u64]) -> bool
    ensures { result ≡ sound_image image.now }
{
    image::fits(image) && image_reader::read(image).sound()
}
