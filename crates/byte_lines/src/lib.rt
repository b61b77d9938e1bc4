// Lines of bytes in digits: a frame's, and those of a composed stream. No public call asks anything of its caller.
#![tactic(auto)]

ghost use Rattle.std.specs.Prelude.{◌≡◌, ◌++◌, ◌+◌, ◌≤◌, length};
ghost use Rattle.output.specs.Block.{block, put_all, put_if_fits};
ghost use Rattle.byte_lines.specs.ByteLines.{byte_digits, frame_line, bytes_line};

// The digits of bytes, two each, at a place of a buffer; the answer is the place after them.
fn put_byte_digits(out: &mut [u8], at: usize, bytes: &[u8]) -> usize
    requires { at + length (byte_digits bytes.now) ≤ length out.old }
    ensures { block out.new result ≡ put_all out.old at (byte_digits bytes.now) }
{
    let mut place = at;
    for byte in bytes {
        hex_digits::put_digits(out, place, u64::from(*byte), 2);
        place += 2;
    }
    place
}

// Each line below is put into a block of output at a place, and the answer is the place after it. Where the whole line does not fit, nothing is
// put, and the answer is the place that was given.

// A text, the digits of bytes, two each, and a line feed.
fn put_line(out: &mut [u8], at: usize, lead: &[u8], bytes: &[u8]) -> usize
    ensures { block out.new result ≡ put_if_fits out.old at (lead.now ++ bytes_line bytes.now) }
{
    let room = out.len().saturating_sub(at).saturating_sub(lead.len());
    if (room + 1) / 2 <= bytes.len() {
        return at;
    }
    let place = output::put_bytes(out, at, lead);
    let end = put_byte_digits(out, place, bytes);
    output::put_bytes(out, end, b"\n")
}

// A frame's line: ">", the digits of its bytes, two each, and a line feed. Two bytes more than the digits.
pub fn frame_line(out: &mut [u8], at: usize, bytes: &[u8]) -> usize
    ensures { block out.new result ≡ put_if_fits out.old at (frame_line bytes.now) }
{
    put_line(out, at, b">", bytes)
}

// A line of bytes: their digits, two each, and a line feed. One byte more than the digits.
pub fn bytes_line(out: &mut [u8], at: usize, bytes: &[u8]) -> usize
    ensures { block out.new result ≡ put_if_fits out.old at (bytes_line bytes.now) }
{
    put_line(out, at, b"", bytes)
}
