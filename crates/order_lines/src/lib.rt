// A line of a text of orders: the order that its words make, or why they make none.
#![tactic(auto)]

ghost use Rattle.std.specs.Prelude.{◌≡◌, ◌≤◌, length};
ghost use Rattle.text_words.specs.Words.{line_limit, words_in};
ghost use Rattle.text_frames.specs.Frames.{frame_limit};
ghost use Rattle.order_lines.specs.Lines.{fields_meaning, words_meaning, line_meaning, fields_read, FieldsAsked, ReadAs};

use orders::Order;

// An order, whose frame is so many bytes of those lent, from the first on.
#[derive(Clone, Copy)]
pub struct LineOrder {
    pub order: Order,
    pub bytes: usize,
}

// Why a line is no order: no command has its name; another count of words; a field is no number of its size.
#[derive(Clone, Copy, PartialEq, Eq, Debug)]
pub enum LineFault {
    UnknownName,
    OtherCount,
    WrongField,
}

// A line by the kind that its name says, with a fit count of words; nothing where a field is wrong.
fn read_fields(
    text: &[u8],
    kind: u64,
    fields: usize,
    count: usize,
    bytes: &mut [u8],
) -> Option<LineOrder>
    requires { FieldsAsked text.now kind fields count bytes.old }
    ensures { ReadAs (fields_meaning kind (words_in text.now)) bytes.new (fields_read result) }
{
    let zeros = order_fields::zeros_field(text, fields, count)?;
    let address = order_fields::address_field(text, kind)?;
    let value = order_fields::value_field(text, kind)?;
    let frame = order_fields::frame_field(text, kind, bytes)?;
    let order = Order {
        kind,
        zeros,
        address,
        value,
        frame: 0,
        bits: frame.bits,
    };
    Some(LineOrder {
        order,
        bytes: frame.bytes,
    })
}

// A line without its comment.
fn read_text(text: &[u8], bytes: &mut [u8]) -> Result<Option<LineOrder>, LineFault>
    requires { (length text.now ≤ line_limit) × (length bytes.old ≡ frame_limit) }
    ensures { ReadAs (words_meaning (words_in text.now)) bytes.new result }
{
    let count = text_words::word_count(text);
    if count == 0 {
        return Ok(None);
    }
    let kind = command_names::kind_named(text_words::word(text, 0)).ok_or(LineFault::UnknownName)?;
    let fields = command_names::field_count(kind);
    if count != 1 + fields && count != 2 + fields {
        return Err(LineFault::OtherCount);
    }
    let read = read_fields(text, kind, fields, count, bytes).ok_or(LineFault::WrongField)?;
    Ok(Some(read))
}

// What a line means, which has no line feed: nothing, an order, or why it is none; the bytes of its frame are put into a buffer from the first on.
pub fn read_line(line: &[u8], bytes: &mut [u8]) -> Result<Option<LineOrder>, LineFault>
    requires { (length line.now ≤ line_limit) × (length bytes.old ≡ frame_limit) }
    ensures { ReadAs (line_meaning line.now) bytes.new result }
{
    let end = text_words::place_of(line, b'#');
    let text = text_words::from_first_word(&line[..end]);
    if text.is_empty() {
        return Ok(None);
    }
    read_text(text, bytes)
}
