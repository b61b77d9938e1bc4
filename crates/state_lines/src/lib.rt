// The bytes of the lines by which a program shows the model's state. No call asks anything of its caller.
#![tactic(auto)]

ghost use Rattle.std.specs.Prelude.{◌≡◌};
ghost use Rattle.output.specs.Block.{block, put_if_fits};
ghost use Rattle.state_lines.specs.StateLines.{register_line, l1id_line, base_line, runmode_line, pointers_line, word_line};

// Each line below is put into a block of output at a place, and the answer is the place after it. Where the whole line does not fit, nothing is
// put, and the answer is the place that was given.

// A register of the model's state: its address, and what it holds. 16 bytes.
pub fn register_line(out: &mut [u8], at: usize, address: usize, value: u16) -> usize
    ensures { block out.new result ≡ put_if_fits out.old at (register_line address value) }
{
    let fields = [(address as u64, 1), (value as u64, 4)];
    number_lines::put_line(out, at, 16, b"register ", &fields)
}

// The trigger number. 8 bytes.
pub fn l1id_line(out: &mut [u8], at: usize, l1id: u8) -> usize
    ensures { block out.new result ≡ put_if_fits out.old at (l1id_line l1id) }
{
    let fields = [(l1id as u64, 2)];
    number_lines::put_line(out, at, 8, b"l1id ", &fields)
}

// The cycle from which the bunch number counts. 18 bytes.
pub fn base_line(out: &mut [u8], at: usize, base: u64) -> usize
    ensures { block out.new result ≡ put_if_fits out.old at (base_line base) }
{
    let fields = [(base, 12)];
    number_lines::put_line(out, at, 18, b"base ", &fields)
}

// RunMode, 1 for on. 10 bytes.
pub fn runmode_line(out: &mut [u8], at: usize, on: bool) -> usize
    ensures { block out.new result ≡ put_if_fits out.old at (runmode_line on) }
{
    let fields = [(u64::from(on), 1)];
    number_lines::put_line(out, at, 10, b"runmode ", &fields)
}

// A FIFO's write and read pointers. 17 bytes.
pub fn pointers_line(out: &mut [u8], at: usize, fifo: usize, write: u8, read: u8) -> usize
    ensures { block out.new result ≡ put_if_fits out.old at (pointers_line fifo write read) }
{
    let fields = [(fifo as u64, 1), (write as u64, 2), (read as u64, 2)];
    number_lines::put_line(out, at, 17, b"pointers ", &fields)
}

// A word of a FIFO, and its place there. 19 bytes.
pub fn word_line(out: &mut [u8], at: usize, fifo: usize, place: usize, word: u32) -> usize
    ensures { block out.new result ≡ put_if_fits out.old at (word_line fifo place word) }
{
    let fields = [(fifo as u64, 1), (place as u64, 2), (word as u64, 8)];
    number_lines::put_line(out, at, 19, b"word ", &fields)
}
