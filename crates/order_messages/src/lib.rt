// The sentence that standard error gets for an order that is refused.
#![tactic(auto)]

ghost use Rattle.std.specs.Prelude.{◌≡◌, ◌+◌, ◌≤◌, length};
ghost use Rattle.output.specs.Block.{block, put_all};
ghost use Rattle.order_messages.specs.OrderSentences.{asked_and_given, order_reason, order_sentence, reason_text, sentence_of};

// Why an order on a line is refused: its line is none, its frame has another count of bits than CNT's, its line is too long, or too few zeros are ahead.
#[derive(Clone, Copy, PartialEq, Eq, Debug)]
pub enum Reason {
    UnknownName,
    OtherCount,
    WrongField,
    OtherBits { asked: u64, given: u64 },
    LongLine,
    FewZeros { asked: u64, given: u64 },
}

impl Reason {
    // The reason of a number, with the two numbers that some have. Any other number is told as too few zeros.
    #[tactic(auto, unfolding(crate::specs::OrderSentences::order_reason, crate::specs::OrderSentences::order_numbers))]
    fn numbered(number: u8, asked: u64, given: u64) -> Reason
        ensures { reason_text result ≡ order_reason number asked given }
    {
        match number {
            1 => Reason::UnknownName,
            2 => Reason::OtherCount,
            3 => Reason::WrongField,
            4 => Reason::OtherBits { asked, given },
            5 => Reason::LongLine,
            _ => Reason::FewZeros { asked, given },
        }
    }
}

// The number of the one reason that is the whole stream's.
pub const LONG_STREAM: u8 = 7;

// Two numbers: what is asked, and what a line gives.
fn put_numbers(
    out: &mut [u8],
    at: usize,
    label: &[u8],
    asked: u64,
    between: &[u8],
    given: u64,
) -> usize
    requires { at + length (asked_and_given label.now asked between.now given) ≤ length out.old }
    ensures { block out.new result ≡ put_all out.old at (asked_and_given label.now asked between.now given) }
{
    let place = decimal_digits::put_labelled(out, at, label, asked, between);
    decimal_digits::put_labelled(out, place, b"", given, b"\n")
}

// Why an order is refused.
#[tactic(auto, unfolding(crate::specs::OrderSentences::order_reason, crate::specs::OrderSentences::order_numbers))]
fn put_order_reason(out: &mut [u8], at: usize, reason: Reason) -> usize
    requires { at + length (reason_text reason) ≤ length out.old }
    ensures { block out.new result ≡ put_all out.old at (reason_text reason) }
{
    match reason {
        Reason::UnknownName => output::put_bytes(out, at, b"no command has this name\n"),
        Reason::OtherCount => {
            output::put_bytes(out, at, b"the command has another count of fields\n")
        }
        Reason::WrongField => output::put_bytes(out, at, b"a field is no number of its size\n"),
        Reason::OtherBits { asked, given } => put_numbers(
            out,
            at,
            b"CNT asks for ",
            asked,
            b" frame bits, and the line gives ",
            given,
        ),
        Reason::LongLine => {
            output::put_bytes(out, at, b"the line is longer than 32768 characters\n")
        }
        Reason::FewZeros { asked, given } => put_numbers(
            out,
            at,
            b"the timing table asks for ",
            asked,
            b" zeros ahead of this command, and the line gives ",
            given,
        ),
    }
}

// The whole sentence for an order that is refused: its line's number, and why.
pub fn put_reason(out: &mut [u8], at: usize, reason: Reason, line: u64) -> usize
    requires { at + length (sentence_of reason line) ≤ length out.old }
    ensures { block out.new result ≡ put_all out.old at (sentence_of reason line) }
{
    let next = decimal_digits::put_labelled(out, at, b"line ", line, b": ");
    put_order_reason(out, next, reason)
}

// The same by the reason's number; or that the stream is too long.
pub fn put_order(out: &mut [u8], at: usize, reason: u8, line: u64, asked: u64, given: u64) -> usize
    requires { at + length (order_sentence reason line asked given) ≤ length out.old }
    ensures { block out.new result ≡ put_all out.old at (order_sentence reason line asked given) }
{
    if reason == LONG_STREAM {
        return output::put_bytes(out, at, b"the stream is longer than 1048576 bytes\n");
    }
    put_reason(out, at, Reason::numbered(reason, asked, given), line)
}
