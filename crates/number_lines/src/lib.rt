// Lines of numbers in digits, parted by spaces, with a text ahead of them.
#![tactic(auto)]

ghost use Rattle.std.specs.Prelude.{◌≡◌, cond, [], ◌∷◌, ◌++◌, ◌+◌, ◌≤◌, ◌<◌, leb, length};
ghost use Rattle.output.specs.Ascii.{line_feed};
ghost use Rattle.output.specs.Block.{block, put_all, put_if_fits};
ghost use Rattle.hex_digits.specs.Digits.{characters_of};
ghost use Rattle.number_lines.specs.NumberLines.{space, fields_text, fields_line, fields_size};

const SPACE: u8 = b' ';

// What stands after a number of a line: the line feed after the last, a space after the others.
fn separator(last: bool) -> u8
    ensures { result ≡ cond last line_feed space }
{
    if last { output::LINE_FEED } else { SPACE }
}

// A number in the digits of its width, and its separator, at a place of a buffer; the answer is the place after them.
#[tactic(auto, using(crate::proofs::NumberPieces::digits_then_separator))]
fn put_number(out: &mut [u8], at: usize, number: u64, width: usize, separator: u8) -> usize
    requires { at + width < length out.old }
    ensures { block out.new result ≡ put_all out.old at (characters_of number width ++ (separator ∷ [])) }
{
    hex_digits::put_digits(out, at, number, width);
    out[at + width] = separator;
    at + width + 1
}

// The numbers of a line, each with its width, at a place of a buffer; the answer is the place after them.
fn put_fields(out: &mut [u8], at: usize, fields: &[(u64, usize)]) -> usize
    requires { at + length (fields_text fields.now) ≤ length out.old }
    ensures { block out.new result ≡ put_all out.old at (fields_text fields.now) }
{
    let mut place = at;
    for (i, field) in fields.iter().enumerate() {
        let (number, width) = *field;
        let end = separator(i + 1 == fields.len());
        place = put_number(out, place, number, width, end);
    }
    place
}

// Whether a text of `size` bytes fits a block of `room` bytes from a place on; no sum here can wrap.
fn fits(room: usize, at: usize, size: usize) -> bool
    ensures { result ≡ leb (at + size) room }
{
    at <= room && size <= room - at
}

// A line of a lead and numbers, each with the count of its digits, put into a block; the caller has its size, as a sum could wrap.
pub fn put_line(
    out: &mut [u8],
    at: usize,
    size: usize,
    lead: &[u8],
    fields: &[(u64, usize)],
) -> usize
    requires { size ≡ length lead.now + fields_size fields.now }
    ensures { block out.new result ≡ put_if_fits out.old at (fields_line lead.now fields.now) }
{
    if !fits(out.len(), at, size) {
        return at;
    }
    let place = output::put_bytes(out, at, lead);
    put_fields(out, place, fields)
}
