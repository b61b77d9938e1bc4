// The fields of a command in a line of a text of orders, by the line's words.
#![tactic(auto)]

ghost use Rattle.std.specs.Prelude.{◌≡◌, ◌≤◌, length};
ghost use Rattle.text_words.specs.Words.{line_limit, words_in};
ghost use Rattle.text_frames.specs.Frames.{frame_limit, FrameAs};
ghost use Rattle.order_fields.specs.Fields.{address_field, value_field, frame_field, zeros_field};

use text_frames::FrameRead;

// The fields of a command, by a line's text; one that it does not use is 0.
pub fn address_field(text: &[u8], kind: u64) -> Option<u64>
    ensures { result ≡ address_field kind (words_in text.now) }
{
    if !order_kinds::uses_address(kind) {
        return Some(0);
    }
    text_numbers::sized(4, text_numbers::read_number(16, text_words::word(text, 1)))
}

pub fn value_field(text: &[u8], kind: u64) -> Option<u64>
    ensures { result ≡ value_field kind (words_in text.now) }
{
    let width = order_kinds::value_width(kind);
    if width == 0 {
        return Some(0);
    }
    let ahead = 1 + usize::from(order_kinds::uses_address(kind));
    text_numbers::sized(
        width,
        text_numbers::read_number(16, text_words::word(text, ahead)),
    )
}

pub fn frame_field(text: &[u8], kind: u64, bytes: &mut [u8]) -> Option<FrameRead>
    requires { (length text.now ≤ line_limit) × (length bytes.old ≡ frame_limit) }
    ensures { FrameAs result bytes.new (frame_field kind (words_in text.now)) }
{
    if !order_kinds::is_frame_kind(kind) {
        return Some(FrameRead { bits: 0, bytes: 0 });
    }
    text_frames::read_frame(text_words::word(text, 1), bytes)
}

// The zeros ahead, behind a name and so many fields.
pub fn zeros_field(text: &[u8], fields: usize, count: usize) -> Option<u64>
    requires { (fields ≤ 3) × (count ≡ length (words_in text.now)) }
    ensures { result ≡ zeros_field fields (words_in text.now) }
{
    if 1 + fields < count {
        return text_numbers::read_number(10, text_words::word(text, 1 + fields));
    }
    Some(0)
}
