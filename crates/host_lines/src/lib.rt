// The library for hosts that are not written in Rattle: a frame's bits and bytes, and lines. `kernelstill_c` exports these functions, which
// include/kernelstill.h declares. None asks anything of its caller.
#![tactic(auto)]

ghost use Rattle.std.specs.Prelude.{cond, ◌≡◌, length};
ghost use Rattle.frames.specs.Tray.{part_of};
ghost use Rattle.records.specs.Records.{kind_of, is_frame_head, frame_bits_of};
ghost use Rattle.host_lines.specs.Lines.{line_result, hex_result_of, record_result_of};

// The refusal number of a buffer that has no room.
const WRONG_BUFFERS: u64 = 4;

// A frame's count of bits, off the two words of its record; 0 for the records of other kinds.
pub fn kernelstill_frame_bits(head: u64, value: u64) -> u64
    ensures { result ≡ cond (is_frame_head head) (frame_bits_of (kind_of head) value) 0 }
{
    if records::is_frame_head(head) {
        return records::frame_bits(head, value) as u64;
    }
    0
}

// How many bytes of the tray a frame of so many bits fills.
pub fn kernelstill_frame_part(tray: &[u8], bits: usize) -> usize
    ensures { result ≡ length (part_of tray.now bits) }
{
    let part = frames::frame_part(tray, bits);
    part.len()
}

// A hexadecimal line's bytes, and the refusal number.
pub fn kernelstill_hex_line(line: &[u8], bytes: &mut [u8]) -> u64
    ensures { line_result result bytes.new ≡ hex_result_of line.now bytes.old }
{
    match hexlines::read_line(line, bytes) {
        Ok(_) => 0,
        Err(fault) => u64::from(fault.number()),
    }
}

// The bytes of a record's line, and the refusal number.
pub fn kernelstill_record_line(line: &mut [u8], head: u64, value: u64) -> u64
    ensures { line_result result line.new ≡ record_result_of head value line.old }
{
    let end = layout::record_line(line, 0, head, value);
    if end == 0 {
        return WRONG_BUFFERS;
    }
    0
}
