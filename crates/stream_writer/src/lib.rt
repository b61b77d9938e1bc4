// Bits written into bytes one after another, the highest bit of a byte first.
#![tactic(auto)]

ghost use Rattle.std.specs.Prelude.{◌≡◌, [], ◌∷◌, ◌+◌, ◌*◌, ◌<◌, ◌≤◌, length};
ghost use Rattle.std.proofs.lemmas.List.Edits.{sets};
ghost use Rattle.bits.specs.Bits.{bits_of};
ghost use Rattle.orders.specs.Streams.{number_bits, zeros, repeated, packed_from};
ghost use Rattle.stream_writer.specs.Writer.{start, place_of, Fits, Wrote};

use bits::Cursor;

// A place in the output: the next byte, and the bits that are held of it, as a number, with their count.
#[derive(Clone, Copy)]
pub struct Writer {
    pub at: usize,
    pub held: u8,
    pub filled: u32,
}

impl Writer {
    // Ahead of the first bit.
    pub fn start() -> Writer
        ensures { result ≡ start }
    {
        Writer {
            at: 0,
            held: 0,
            filled: 0,
        }
    }

    // One bit more.
    pub fn put_bit(self, out: &mut [u8], bit: u8) -> Writer
        requires { Fits self × (bit < 2) × (place_of self + 1 ≤ 8 * length out.old) }
        ensures { Wrote self out.old (bit ∷ []) result out.new }
    {
        let held = self.held * 2 + bit;
        let at = self.at;
        if self.filled < 7 {
            return Writer {
                at,
                held,
                filled: self.filled + 1,
            };
        }
        out[at] = held;
        Writer {
            at: at + 1,
            held: 0,
            filled: 0,
        }
    }

    // Eight bits more, as a byte.
    pub fn put_byte(self, out: &mut [u8], byte: u8) -> Writer
        requires { Fits self × (place_of self + 8 ≤ 8 * length out.old) }
        ensures { Wrote self out.old (number_bits 8 byte) result out.new }
    {
        let both = self.held as u32 * 256 + byte as u32;
        let at = self.at;
        out[at] = (both >> self.filled) as u8;
        Writer {
            at: at + 1,
            held: (both % (1 << self.filled)) as u8,
            filled: self.filled,
        }
    }

    // So many bytes of zeros more.
    // One loop for bytes and single bits would go over a closure, whose clauses are longer than this loop and the next.
    fn put_zero_bytes(self, out: &mut [u8], count: usize) -> Writer
        requires { Fits self × (place_of self + 8 * count ≤ 8 * length out.old) }
        ensures { Wrote self out.old (zeros (8 * count)) result out.new }
    {
        let mut writer = self;
        for _ in 0..count {
            writer = writer.put_byte(out, 0);
        }
        writer
    }

    // So many zeros more, one by one.
    fn put_zero_bits(self, out: &mut [u8], count: usize) -> Writer
        requires { Fits self × (place_of self + count ≤ 8 * length out.old) }
        ensures { Wrote self out.old (zeros count) result out.new }
    {
        let mut writer = self;
        for _ in 0..count {
            writer = writer.put_bit(out, 0);
        }
        writer
    }

    // So many zeros more.
    pub fn put_zeros(self, out: &mut [u8], count: usize) -> Writer
        requires { Fits self × (place_of self + count ≤ 8 * length out.old) }
        ensures { Wrote self out.old (zeros count) result out.new }
    {
        let whole = self.put_zero_bytes(out, count / 8);
        whole.put_zero_bits(out, count % 8)
    }

    // A number in so many bits, the highest first.
    pub fn put_number(self, out: &mut [u8], width: u32, value: u64) -> Writer
        requires { Fits self × (width ≤ 32) × (place_of self + width ≤ 8 * length out.old) }
        ensures { Wrote self out.old (number_bits width value) result out.new }
    {
        let mut writer = self;
        for place in (0..width).rev() {
            writer = writer.put_bit(out, ((value >> place as u64) % 2) as u8);
        }
        writer
    }

    // The bits of so many bytes, each as it stands.
    pub fn put_bytes(self, out: &mut [u8], bytes: &[u8], count: usize) -> Writer
        requires { Fits self × (count ≤ length bytes.now) × (place_of self + 8 * count ≤ 8 * length out.old) }
        ensures { Wrote self out.old (bits_of bytes.now 0 (8 * count)) result out.new }
    {
        let mut writer = self;
        for byte in &bytes[..count] {
            writer = writer.put_byte(out, *byte);
        }
        writer
    }

    // So many bits, each of them eight times.
    pub fn put_eightfold(self, out: &mut [u8], bytes: &[u8], count: usize) -> Writer
        requires { Fits self × (count ≤ 65536) × (count ≤ 8 * length bytes.now) × (place_of self + 8 * count ≤ 8 * length out.old) }
        ensures { Wrote self out.old (repeated 8 (bits_of bytes.now 0 count)) result out.new }
    {
        let mut at = Cursor::at(0);
        let mut writer = self;
        // The cursor goes on beside it: a place made a byte and a bit anew would cost a shift and a mask for each bit.
        for _ in 0..count {
            writer = writer.put_byte(out, at.read(bytes) * 255);
            at = at.next();
        }
        writer
    }

    // The end: the last byte is filled up with zeros.
    pub fn finish(self, out: &mut [u8])
        requires { Fits self × (place_of self ≤ 8 * length out.old) }
        ensures { out.new ≡ sets out.old self.at (packed_from self.held self.filled []) }
    {
        if self.filled == 0 {
            return;
        }
        let at = self.at;
        out[at] = self.held << (8 - self.filled);
    }
}
