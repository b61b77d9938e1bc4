// What an order goes by: whether it is fit there, its refusal number, and what it leaves to the next order.
#![tactic(auto)]

ghost use Rattle.std.specs.Prelude.{◌≡◌, true};
ghost use Rattle.orders.specs.Fields.{address_fits, value_fits, frame_fits, order_fits};
ghost use Rattle.orders.specs.Composing.{start, context_after, order_number};
ghost use Rattle.contexts.specs.Faults.{fault_number, refusal_number};

use order_kinds::{GLOBAL_RESET_MCC, WR_REGISTER};
use orders::{Context, Order};
use plans::Plan;

// What is wrong with an order: an unknown command or a used field of the wrong size; too few zeros ahead of it.
#[derive(Clone, Copy, Debug, PartialEq, Eq)]
pub enum OrderFault {
    WrongOrder,
    TooFewZeros,
}

impl OrderFault {
    // Its refusal number.
    pub fn number(self) -> u8
        ensures { result ≡ fault_number self }
    {
        match self {
            OrderFault::WrongOrder => 9,
            OrderFault::TooFewZeros => 10,
        }
    }
}

fn address_fits(order: Order) -> bool
    ensures { result ≡ address_fits order }
{
    !order_kinds::uses_address(order.kind) || order.address < 16
}

fn value_fits(order: Order) -> bool
    ensures { result ≡ value_fits order }
{
    let width = order_kinds::value_width(order.kind);
    width == 0 || order.value < 1 << width as u64
}

// Whether its frame has the bits that CNT asks, and as many are lent, of so many bytes.
fn frame_fits(order: Order, cnt: u16, bytes: usize) -> bool
    ensures { result ≡ frame_fits cnt order bytes }
{
    if !order_kinds::is_frame_kind(order.kind) {
        return true;
    }
    order.bits == order_kinds::frame_count(order.kind, cnt)
        && order.bits.div_ceil(8) <= bytes as u64
}

// Whether its command is known and its used fields have their size.
#[tactic(auto, unfolding(orders::specs::Fields::order_fits))]
fn fits(order: Order, cnt: u16, bytes: usize) -> bool
    ensures { result ≡ order_fits cnt order bytes }
{
    order_kinds::is_known(order.kind)
        && address_fits(order)
        && value_fits(order)
        && frame_fits(order, cnt, bytes)
}

// `Context` is a type of `orders`, below the kinds and the timing table, so what goes by it are functions.

// Ahead of the first order.
pub fn start() -> Context
    ensures { result ≡ start }
{
    Context { last: 0, cnt: 0 }
}

// What is wrong with an order, by the bytes lent for its frame.
pub fn check(context: Context, order: Order, bytes: usize) -> Result<(), OrderFault>
    ensures { refusal_number result ≡ order_number context order bytes }
{
    if !fits(order, context.cnt, bytes) {
        return Err(OrderFault::WrongOrder);
    }
    if order.zeros < timing::zeros_asked(context.last, order.kind as u8) as u64 {
        return Err(OrderFault::TooFewZeros);
    }
    Ok(())
}

// What a fit order leaves to the next.
pub fn after(context: Context, plan: Plan, order: Order, bytes: usize) -> Context
    requires { order_fits context.cnt order bytes ≡ true }
    ensures { result ≡ context_after plan context order }
{
    let cnt = match order.kind {
        GLOBAL_RESET_MCC => 0,
        WR_REGISTER if order.address == plan.cnt as u64 => order.value as u16,
        _ => context.cnt,
    };
    Context {
        last: order.kind as u8,
        cnt,
    }
}
