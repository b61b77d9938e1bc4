// The receiver FIFOs: words written and read at their pointers.
#![tactic(auto)]

ghost use Rattle.std.specs.Prelude.{◌≡◌, ◌<◌, length};
ghost use Rattle.limits.specs.Limits.{store_length};
ghost use Rattle.fifos.specs.Fifos.{moved_on, write_of, read_word_of};

// FIFO words have 27 bits: each is below this.
pub const WORD: u32 = 0x0800_0000;

pub fn moved_on(pointer: u8) -> u8
    ensures { result ≡ moved_on pointer }
{
    (pointer % 128 + 1) % 128
}

// The word goes to each FIFO whose bit in FEEN is set, at its write pointer, which then moves on. Answers the pointers.
pub fn write_all(writes: [u8; 16], feen: u16, word: u32, store: &mut [u32]) -> [u8; 16]
    requires { length store.old ≡ store_length }
    ensures { (record { writes = result; store = store.new }) ≡ write_of 16 0 feen word (record { writes = writes; store = store.old }) }
{
    let mut p = writes;
    let mut n: usize = 0;
    while n < 16 {
        if feen >> n & 1 == 1 {
            let pointer = p[n];
            store[n * 128 + (pointer % 128) as usize] = word;
            p[n] = moved_on(pointer);
        }
        n = n + 1;
    }
    p
}

// The word of FIFO n at its read pointer.
pub fn read_word(store: &[u32], n: usize, pointer: u8) -> u32
    requires { (n < 16) × (length store.now ≡ store_length) }
    ensures { result ≡ read_word_of store.now n pointer }
{
    store[n * 128 + (pointer % 128) as usize] % WORD
}
