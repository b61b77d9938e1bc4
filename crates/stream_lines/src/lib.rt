// The hexadecimal lines of a composed stream.
#![tactic(auto)]

ghost use Rattle.std.specs.Prelude.{◌≡◌, ◌+◌, ◌≤◌, min, length};
ghost use Rattle.output.specs.Block.{block_length, block, put_all};
ghost use Rattle.stream_lines.specs.StreamLines.{stream_text, part_limit};

// The bytes of a line of the stream, and of as many lines as a block of text holds.
pub const LINE_BYTES: usize = 32;

pub const PART_BYTES: usize = 32256;

// The hexadecimal lines of a part of the stream; the answer is how many bytes they take.
pub fn put_stream(bytes: &[u8], out: &mut [u8]) -> usize
    requires { (length bytes.now ≤ part_limit) × (length out.old ≡ block_length) }
    ensures { block out.new result ≡ put_all out.old 0 (stream_text bytes.now) }
{
    let mut place = 0;
    for line in bytes.chunks(LINE_BYTES) {
        place = byte_lines::bytes_line(out, place, line);
    }
    place
}
