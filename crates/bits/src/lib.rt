// The input as a stream of bits, one for each clock cycle.
#![tactic(auto)]

ghost use Rattle.std.specs.Prelude.{◌≡◌, ◌+◌, ◌<◌, length};
ghost use Rattle.limits.specs.Limits.{input_limit};
ghost use Rattle.bits.specs.Bits.{bit_of};
ghost use Rattle.bits.specs.Place.{cursor_at, place_under};
ghost use Rattle.bits.specs.Range.{range_fits};

// The longest input of a call, in bytes.
pub const INPUT_LIMIT: usize = 1048576;

// A place of the input, kept as a reader goes on: a byte, and a bit of it, 7 for the highest, which comes first.
#[derive(Clone, Copy)]
pub struct Cursor {
    pub byte: usize,
    pub bit: u32,
}

impl Cursor {
    // At a place counted from the highest bit of byte 0.
    pub fn at(place: usize) -> Self
        ensures { result ≡ cursor_at place }
    {
        Cursor {
            byte: place >> 3,
            bit: 7 - (place & 7) as u32,
        }
    }

    // The bit under it.
    pub fn read(self, input: &[u8]) -> u8
        requires { (self.bit < 8) × (self.byte < length input.now) }
        ensures { result ≡ bit_of input.now (place_under self) }
    {
        let byte = self.byte;
        (input[byte] >> self.bit) & 1
    }

    // One bit on.
    pub fn next(self) -> Self
        requires { (self.bit < 8) × (self.byte < input_limit) }
        ensures { result ≡ cursor_at (place_under self + 1) }
    {
        let last = self.bit == 0;
        Cursor {
            byte: self.byte + last as usize,
            bit: (self.bit + 7) & 7,
        }
    }
}

// Whether the input is not too long and the range ends within it; no sum here can wrap.
pub fn range_fits(input: &[u8], first: usize, count: usize) -> bool
    ensures { result ≡ range_fits (length input.now) first count }
{
    if INPUT_LIMIT < input.len() {
        return false;
    }
    let end = 8 * input.len();
    if end < first {
        return false;
    }
    count <= end - first
}
