// The bytes of the listing's lines of numbers: a record's, and those of refusals. No call asks anything of its caller.
#![tactic(auto)]

ghost use Rattle.std.specs.Prelude.{◌≡◌};
ghost use Rattle.output.specs.Block.{block, put_if_fits};
ghost use Rattle.layout.specs.ListingLines.{record_line, refused_line, fault_line};

// Each line below is put into a block of output at a place, and the answer is the place after it. Where the whole line does not fit, nothing is
// put, and the answer is the place that was given.

// A record's line from its two words. 28 bytes.
pub fn record_line(out: &mut [u8], at: usize, head: u64, value: u64) -> usize
    ensures { block out.new result ≡ put_if_fits out.old at (record_line head value) }
{
    let fields = [
        (head / 65536, 12),
        (head / 256 % 256, 2),
        (head % 256, 2),
        (value, 8),
    ];
    number_lines::put_line(out, at, 28, b"", &fields)
}

// What a refused line prints: the refusal's number, and the line's number from 1. 13 bytes.
pub fn refused_line(out: &mut [u8], at: usize, number: u8, line: u64) -> usize
    ensures { block out.new result ≡ put_if_fits out.old at (refused_line number line) }
{
    let fields = [(number as u64, 2), (line, 8)];
    number_lines::put_line(out, at, 13, b"!", &fields)
}

// What a pattern at fault prints: the refusal's number, and the place of its first bit, as a time. 17 bytes.
pub fn fault_line(out: &mut [u8], at: usize, number: u8, place: u64) -> usize
    ensures { block out.new result ≡ put_if_fits out.old at (fault_line number place) }
{
    let fields = [(number as u64, 2), (place, 12)];
    number_lines::put_line(out, at, 17, b"!", &fields)
}
