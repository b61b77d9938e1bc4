// The composing call: a list of orders in words, checked as a whole and then written.
#![tactic(auto)]

ghost use Rattle.std.specs.Prelude.{◌≡◌, length};
ghost use Rattle.std.proofs.lemmas.List.Edits.{sets};
ghost use Rattle.orders.specs.Fields.{orders_in};
ghost use Rattle.orders.specs.Streams.{stream_of, packed};
ghost use Rattle.orders.specs.Composing.{compose_result, compose_of};
ghost use Rattle.stream_writer.specs.Writer.{start, Wrote};
ghost use Rattle.composing.specs.Checked.{Room, checked_of};
ghost use Rattle.compose_calls.specs.AllFit.{AllFit};
ghost use Rattle.compose_calls.specs.Answers.{refused, answered};

use contexts::OrderFault;
use lent_orders::ORDER_WORDS;
use plans::Plan;
use stream_writer::Writer;

// What is refused of a composing call: its plan, one of its orders, with its number counted from 0, or a stream that is too long.
#[derive(Clone, Copy, Debug, PartialEq, Eq)]
pub enum ComposeError {
    WrongPlan,
    WrongOrder { fault: OrderFault, order: u64 },
    StreamTooLong,
}

impl ComposeError {
    // Its refusal number.
    pub fn number(self) -> u8
        ensures { result ≡ (refused self).number }
    {
        match self {
            ComposeError::WrongPlan => 1,
            ComposeError::WrongOrder { fault, .. } => fault.number(),
            ComposeError::StreamTooLong => 11,
        }
    }

    // The number of the order that was refused, 0 where none was.
    pub fn order(self) -> u64
        ensures { result ≡ (refused self).order }
    {
        match self {
            ComposeError::WrongOrder { order, .. } => order,
            _ => 0,
        }
    }
}

// The count of the stream's bits, where no order is refused.
fn check_orders(plan: Plan, words: &[u64], frames: &[u8]) -> Result<u64, ComposeError>
    ensures { answered result ≡ checked_of plan (orders_in frames.now words.now) }
{
    let mut context = contexts::start();
    let mut bits: u64 = 0;
    for (number, order_words) in words.chunks(ORDER_WORDS).enumerate() {
        let order = lent_orders::read_order(order_words);
        let lent = lent_orders::lent_from(frames, order.frame);
        if let Err(fault) = contexts::check(context, order, lent.len()) {
            return Err(ComposeError::WrongOrder {
                fault,
                order: number as u64,
            });
        }
        context = contexts::after(context, plan, order, lent.len());
        let ahead = composing::add_bits(bits, order.zeros);
        bits = composing::add_bits(ahead, composing::command_width(order, lent.len()));
    }
    Ok(bits)
}

// The bits of all orders, which are fit.
fn put_orders(words: &[u64], frames: &[u8], out: &mut [u8]) -> Writer
    requires { AllFit (orders_in frames.now words.now) × Room start out.old (stream_of (orders_in frames.now words.now)) }
    ensures { Wrote start out.old (stream_of (orders_in frames.now words.now)) result out.new }
{
    let mut writer = Writer::start();
    for order_words in words.chunks(ORDER_WORDS) {
        let order = lent_orders::read_order(order_words);
        let lent = lent_orders::lent_from(frames, order.frame);
        writer = composing::put_order(writer, out, order, lent);
    }
    writer
}

// Composes the stream of a list of orders, six words each, whose frames' bits are lent, into the output's first bytes.
// Answers the count of bits, or a refusal, at which nothing is written.
pub fn compose(
    plan: Plan,
    words: &[u64],
    frames: &[u8],
    out: &mut [u8],
) -> Result<u64, ComposeError>
    ensures { compose_result (answered result) out.new ≡ compose_of plan (orders_in frames.now words.now) out.old }
{
    if !plan.fits() {
        return Err(ComposeError::WrongPlan);
    }
    let bits = check_orders(plan, words, frames)?;
    if !composing::room_fits(bits, out.len()) {
        return Err(ComposeError::StreamTooLong);
    }
    let writer = put_orders(words, frames, out);
    writer.finish(out);
    Ok(bits)
}
