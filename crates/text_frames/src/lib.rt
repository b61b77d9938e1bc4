// The frame that a word of a text stands for: its digits, and how many of their bits it has.
#![tactic(auto)]

ghost use Rattle.std.specs.Prelude.{◌≡◌, ◌≤◌, ◌<◌, length, get_or, ltb};
ghost use Rattle.output.specs.Block.{block, put_all};
ghost use Rattle.text_words.specs.Words.{line_limit};
ghost use Rattle.text_numbers.specs.Numbers.{digit_of};
ghost use Rattle.text_frames.specs.Frames.{frame_limit, up_to_colon, are_digits, half, bytes_of, bits_said, frame_of, FrameAs};

// The bytes that the digits of a line's frame fill, at most.
pub const FRAME_LIMIT: usize = 16384;

// A frame of a line: the count of its bits, and that of the bytes in which they are lent.
#[derive(Clone, Copy)]
pub struct FrameRead {
    pub bits: u64,
    pub bytes: usize,
}

fn is_digit(character: u8) -> bool
    ensures { result ≡ ltb (digit_of character) 16 }
{
    text_numbers::digit(character).is_some()
}

fn are_digits(word: &[u8]) -> bool
    ensures { result ≡ are_digits word.now }
{
    word.iter().all(|character| is_digit(*character))
}

// Half a byte, by the digit at a place; 0 past the digits' end.
fn half_at(digits: &[u8], i: usize) -> u64
    ensures { (result ≡ half (get_or digits.now i 0)) × (result < 16) }
{
    let character = digits.get(i).copied().unwrap_or(0);
    text_numbers::digit(character).unwrap_or(0)
}

// The bytes of digits, two each, put into a buffer from its first on; the answer is how many they are.
fn put_digits(digits: &[u8], bytes: &mut [u8]) -> usize
    requires { (length digits.now ≤ line_limit) × (length bytes.old ≡ frame_limit) }
    ensures { block bytes.new result ≡ put_all bytes.old 0 (bytes_of digits.now) }
{
    let size = digits.len().div_ceil(2);
    // By place: the last of an odd count of digits has no second one beside it, which chunks of two would have to tell apart.
    for n in 0..size {
        let high = half_at(digits, 2 * n);
        let low = half_at(digits, 2 * n + 1);
        bytes[n] = (high * 16 + low) as u8;
    }
    size
}

// The bits that a frame's word says, of so many digits.
fn bits_said(word: &[u8], digits: usize) -> Option<u64>
    requires { (digits ≡ length (up_to_colon word.now)) × (length word.now ≤ line_limit) }
    ensures { result ≡ bits_said 0 word.now }
{
    if digits < word.len() {
        let behind = digits + 1;
        return text_numbers::read_number(10, &word[behind..]);
    }
    Some(4 * digits as u64)
}

// A frame of a line, its bytes put into a buffer from the first on.
pub fn read_frame(word: &[u8], bytes: &mut [u8]) -> Option<FrameRead>
    requires { (length word.now ≤ line_limit) × (length bytes.old ≡ frame_limit) }
    ensures { FrameAs result bytes.new (frame_of word.now) }
{
    let count = text_words::place_of(word, b':');
    let digits = &word[..count];
    if !are_digits(digits) {
        return None;
    }
    let given = 4 * count as u64;
    let bits = bits_said(word, count).filter(|bits| *bits <= given)?;
    let size = put_digits(digits, bytes);
    Some(FrameRead { bits, bytes: size })
}
