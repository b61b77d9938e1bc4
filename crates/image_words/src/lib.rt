// The words of an image: where its arrays stand, numbers put and read word by word, and words compared.
#![tactic(auto)]

ghost use Rattle.std.specs.Prelude.{◌≡◌, ◌+◌, ◌≤◌, length, replicate};
ghost use Rattle.std.proofs.lemmas.List.Edits.{sets};
ghost use Rattle.image_fields.specs.Fields.{bits};
ghost use Rattle.image_fields.specs.Image.{low_words, same_words};

// The words of the scalars, and so where the registers stand; the pointers stand behind them.
pub const REGISTERS: usize = 22;

pub const WRITES: usize = REGISTERS + 16;

pub const READS: usize = WRITES + 16;

// The words of an image.
pub const WORDS: usize = READS + 16;

// The scalars, from word 0 on.
pub fn put_scalars(image: &mut [u64], numbers: [u64; REGISTERS])
    requires { length numbers ≤ length image.old }
    ensures { image.new ≡ sets image.old 0 numbers }
{
    let mut n: usize = 0;
    while n < REGISTERS {
        image[n] = numbers[n];
        n += 1;
    }
}

// Sixteen numbers from a place on, one a word. A function for each width: as one over a trait, in place of these and those that read, the call for C took
// 1.1 of the time on dense commands, and 1.18 on receiver frames.
pub fn put_u16(image: &mut [u64], at: usize, numbers: [u16; 16])
    requires { at + 16 ≤ length image.old }
    ensures { image.new ≡ sets image.old at numbers }
{
    let mut n: usize = 0;
    while n < 16 {
        image[at + n] = numbers[n] as u64;
        n += 1;
    }
}

pub fn put_u8(image: &mut [u64], at: usize, numbers: [u8; 16])
    requires { at + 16 ≤ length image.old }
    ensures { image.new ≡ sets image.old at numbers }
{
    let mut n: usize = 0;
    while n < 16 {
        image[at + n] = numbers[n] as u64;
        n += 1;
    }
}

// The numbers of 16 words from a place on, each by its low bits.
pub fn u16_at(image: &[u64], at: usize) -> [u16; 16]
    requires { at + 16 ≤ length image.now }
    ensures { result ≡ low_words (replicate 16 (bits 16)) at image.now }
{
    let mut numbers = [0u16; 16];
    let mut n: usize = 0;
    while n < 16 {
        numbers[n] = (image[at + n] % 65536) as u16;
        n += 1;
    }
    numbers
}

pub fn u8_at(image: &[u64], at: usize) -> [u8; 16]
    requires { at + 16 ≤ length image.now }
    ensures { result ≡ low_words (replicate 16 (bits 8)) at image.now }
{
    let mut numbers = [0u8; 16];
    let mut n: usize = 0;
    while n < 16 {
        numbers[n] = (image[at + n] % 256) as u8;
        n += 1;
    }
    numbers
}

pub fn same(a: &[u64], b: &[u64]) -> bool
    requires { length a.now ≡ length b.now }
    ensures { result ≡ same_words a.now b.now }
{
    let mut k: usize = 0;
    while k < a.len() {
        if a[k] != b[k] {
            return false;
        }
        k += 1;
    }
    true
}
