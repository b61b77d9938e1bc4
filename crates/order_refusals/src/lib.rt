// What is refused of a text of orders: its number, its line and its sentence.
#![tactic(auto)]

ghost use Rattle.std.specs.Prelude.{◌≡◌, length};
ghost use Rattle.output.specs.Block.{block_length, block, put_all};
ghost use Rattle.layout.specs.ListingLines.{refused_line};
ghost use Rattle.order_lines.specs.Lines.{reason_of};
ghost use Rattle.order_refusals.specs.Refusals.{refusal, order_refusal, refused, refused_if, message_of};

use contexts::OrderFault;
use order_lines::LineFault;
use order_messages::Reason;
use orders::{Context, Order};

// A refusal: a line by its number from 1, and why; or that the whole stream is too long.
#[derive(Clone, Copy, PartialEq, Eq, Debug)]
pub enum Refusal {
    Line { line: u64, reason: Reason },
    LongStream,
}

// The refusal numbers.
const WRONG_ORDER: u8 = 9;

const TOO_FEW_ZEROS: u8 = 10;

const STREAM_TOO_LONG: u8 = 11;

impl Refusal {
    // A line that is no order.
    pub fn of_fault(line: u64, fault: LineFault) -> Refusal
        ensures { refused result ≡ refusal 9 line (reason_of fault) 0 0 }
    {
        let reason = match fault {
            LineFault::UnknownName => Reason::UnknownName,
            LineFault::OtherCount => Reason::OtherCount,
            LineFault::WrongField => Reason::WrongField,
        };
        Refusal::Line { line, reason }
    }

    // The refusal of an order that is read, if it is refused, by the bytes lent for its frame.
    pub fn of_order(context: Context, line: u64, order: Order, bytes: usize) -> Option<Refusal>
        ensures { refused_if result ≡ order_refusal context line order bytes }
    {
        match contexts::check(context, order, bytes) {
            Ok(()) => None,
            Err(OrderFault::WrongOrder) => {
                let reason = Reason::OtherBits {
                    asked: order_kinds::frame_count(order.kind, context.cnt),
                    given: order.bits,
                };
                Some(Refusal::Line { line, reason })
            }
            Err(OrderFault::TooFewZeros) => {
                let reason = Reason::FewZeros {
                    asked: timing::zeros_asked(context.last, order.kind as u8) as u64,
                    given: order.zeros,
                };
                Some(Refusal::Line { line, reason })
            }
        }
    }

    pub fn number(self) -> u8
        ensures { result ≡ (refused self).number }
    {
        match self {
            Refusal::Line {
                reason: Reason::FewZeros { .. },
                ..
            } => TOO_FEW_ZEROS,
            Refusal::Line { .. } => WRONG_ORDER,
            Refusal::LongStream => STREAM_TOO_LONG,
        }
    }

    // The line's number from 1; 0 for the whole stream.
    pub fn line(self) -> u64
        ensures { result ≡ (refused self).line }
    {
        match self {
            Refusal::Line { line, .. } => line,
            Refusal::LongStream => 0,
        }
    }

    // The line that a refusal prints; the answer is how many bytes it takes.
    pub fn put_line(self, out: &mut [u8]) -> usize
        requires { length out.old ≡ block_length }
        ensures { block out.new result ≡ put_all out.old 0 (refused_line (refused self).number (refused self).line) }
    {
        layout::refused_line(out, 0, self.number(), self.line())
    }

    // The sentence of a refusal; the answer is how many bytes it takes.
    pub fn put_message(self, out: &mut [u8]) -> usize
        requires { length out.old ≡ block_length }
        ensures { block out.new result ≡ put_all out.old 0 (message_of (refused self)) }
    {
        match self {
            Refusal::Line { line, reason } => order_messages::put_reason(out, 0, reason, line),
            Refusal::LongStream => {
                order_messages::put_order(out, 0, order_messages::LONG_STREAM, 0, 0, 0)
            }
        }
    }
}
