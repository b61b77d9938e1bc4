// Which words are the image of a state.
#![tactic(auto)]

ghost use Rattle.std.specs.Prelude.{◌≡◌};
ghost use Rattle.image_fields.specs.Image.{image_fits};

use image_words::WORDS;

// Whether the words are the image of a state.
pub fn fits(image: &[u64]) -> bool
    ensures { result ≡ image_fits image.now }
{
    if image.len() != WORDS {
        return false;
    }
    let mut words = [0u64; WORDS];
    image_writer::write(image_reader::read(image), &mut words);
    image_words::same(&words, image)
}
