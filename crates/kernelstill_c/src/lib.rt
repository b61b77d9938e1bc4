// The library for hosts in C, C++ and Python: each function of include/kernelstill.h, under its name in C, with the contract that it has in its own crate.
// None asks anything of its caller.
#![tactic(auto)]

ghost use Rattle.std.specs.Prelude.{◌≡◌, length, cond};
ghost use Rattle.decoder.specs.Opening.{open_of};
ghost use Rattle.image_fields.specs.Image.{image_length, state_of};
ghost use Rattle.host_plans.specs.Plans.{plan_of};
ghost use Rattle.host_opening.specs.Open.{open_result, open_result_of};
ghost use Rattle.host_opening.specs.Holding.{Holds};
ghost use Rattle.calls.specs.Take.{call, take_of};
ghost use Rattle.host_results.specs.Take.{take_result, take_result_of};
ghost use Rattle.records.specs.Records.{kind_of, is_frame_head, frame_bits_of};
ghost use Rattle.frames.specs.Tray.{part_of};
ghost use Rattle.patterns.specs.Verdicts.{accept_of};
ghost use Rattle.host_streams.specs.Accept.{accept_word};
ghost use Rattle.host_streams.specs.Compose.{compose_words, compose_words_of};
ghost use Rattle.host_streams.specs.Reply.{reply_words, reply_words_of};
ghost use Rattle.host_lines.specs.Lines.{line_result, hex_result_of, record_result_of};

// Opening: the image then holds the start state; the answer is the refusal number.
#[unsafe(no_mangle)]
pub extern "C" fn kernelstill_open(
    mask: u64,
    csr: u64,
    feen: u64,
    cnt: u64,
    cycle: u64,
    image: &mut [u64],
) -> u64
    ensures image_after { open_result result image.new ≡ open_result_of mask csr feen cnt cycle image.old }
    ensures holds { length image.old ≡ image_length → Holds image.new (open_of (plan_of mask csr feen cnt) cycle).decoder }
{
    host_opening::kernelstill_open(mask, csr, feen, cnt, cycle, image)
}

// Taking bits: the image, the store and the tray move on, records go into the list, and the result into three words. The
// image then holds the next state.
#[unsafe(no_mangle)]
pub extern "C" fn kernelstill_take(
    image: &mut [u64],
    input: &[u8],
    first: usize,
    count: usize,
    store: &mut [u32],
    tray: &mut [u8],
    list: &mut [u64],
    free: usize,
    res: &mut [u64],
) -> u64
    ensures list_after { take_result result image.new res.new store.new tray.new list.new
        ≡ take_result_of image.old res.old
        (call input.now first count store.old tray.old list.old free) }
    ensures holds { result ≡ 0 → Holds image.new (take_of (state_of image.old)
        (call input.now first count store.old tray.old list.old free)).taken.decoder }
{
    kernelstill::kernelstill_take(image, input, first, count, store, tray, list, free, res)
}

// A frame's count of bits, off the two words of its record; 0 for the records of other kinds.
#[unsafe(no_mangle)]
pub extern "C" fn kernelstill_frame_bits(head: u64, value: u64) -> u64
    ensures { result ≡ cond (is_frame_head head) (frame_bits_of (kind_of head) value) 0 }
{
    host_lines::kernelstill_frame_bits(head, value)
}

// How many bytes of the tray a frame of so many bits fills.
#[unsafe(no_mangle)]
pub extern "C" fn kernelstill_frame_part(tray: &[u8], bits: usize) -> usize
    ensures { result ≡ length (part_of tray.now bits) }
{
    host_lines::kernelstill_frame_part(tray, bits)
}

// Whether a range of the input is an accepted stream: the refusal number, and 256 times the place of the pattern at fault.
#[unsafe(no_mangle)]
pub extern "C" fn kernelstill_accept(input: &[u8], first: usize, count: usize) -> u64
    ensures { result ≡ accept_word (accept_of input.now first count) }
{
    host_streams::kernelstill_accept(input, first, count)
}

// The stream of a list of orders, six words each, in the output's first bytes. A refusal changes nothing.
#[unsafe(no_mangle)]
pub extern "C" fn kernelstill_compose(
    mask: u64,
    csr: u64,
    feen: u64,
    cnt: u64,
    orders: &[u64],
    frames: &[u8],
    output: &mut [u8],
) -> u64
    ensures { compose_words result output.new
        ≡ compose_words_of mask csr feen cnt orders.now frames.now output.old }
{
    host_streams::kernelstill_compose(mask, csr, feen, cnt, orders, frames, output)
}

// The reply in a range of the input, of so many data bits, which go into the buffer: the refusal number, 256 times the verdict and 65,536 times the
// count of complete bits. A refusal changes nothing.
#[unsafe(no_mangle)]
pub extern "C" fn kernelstill_reply(
    input: &[u8],
    first: usize,
    count: usize,
    expected: u64,
    buffer: &mut [u8],
) -> u64
    ensures { reply_words result buffer.new ≡ reply_words_of input.now first count expected buffer.old }
{
    host_streams::kernelstill_reply(input, first, count, expected, buffer)
}

// A hexadecimal line's bytes, and the refusal number.
#[unsafe(no_mangle)]
pub extern "C" fn kernelstill_hex_line(line: &[u8], bytes: &mut [u8]) -> u64
    ensures { line_result result bytes.new ≡ hex_result_of line.now bytes.old }
{
    host_lines::kernelstill_hex_line(line, bytes)
}

// The bytes of a record's line, and the refusal number.
#[unsafe(no_mangle)]
pub extern "C" fn kernelstill_record_line(line: &mut [u8], head: u64, value: u64) -> u64
    ensures { line_result result line.new ≡ record_result_of head value line.old }
{
    host_lines::kernelstill_record_line(line, head, value)
}
