// The kinds of commands that an order may have: whether one is known, which fields it uses, and how wide they are.
#![tactic(auto)]

ghost use Rattle.std.specs.Prelude.{◌≡◌, ◌≤◌};
ghost use Rattle.orders.specs.Fields.{is_known, is_frame_kind, uses_address, field4, value_width, frame_count};

use orders::Order;
use records::{KIND_FAST, KIND_LV1, KIND_SLOW};

// The kinds of the Slow commands that are named here.
pub const WR_REGISTER: u64 = 0x20;

const RD_REGISTER: u64 = 0x21;

const WR_FIFO: u64 = 0x22;

const RD_FIFO: u64 = 0x23;

const WR_FRONT_END: u64 = 0x24;

pub const WR_RECEIVER: u64 = 0x26;

pub const GLOBAL_RESET_MCC: u64 = 0x29;

const GLOBAL_RESET_FE: u64 = 0x2A;

// Whether a command has this kind: the exact LV1, BCR, ECR, CAL, SYNC and the Slow commands.
pub fn is_known(kind: u64) -> bool
    ensures { result ≡ is_known kind }
{
    match u8::try_from(kind) {
        Ok(KIND_LV1) => true,
        Ok(slow @ KIND_SLOW..) => slow_fields::is_slow(slow - KIND_SLOW),
        Ok(fast @ KIND_FAST..) => windows::is_fast(fast - KIND_FAST),
        _ => false,
    }
}

// Whether the command carries a frame: WrFrontEnd, RdFrontEnd, WrReceiver.
pub fn is_frame_kind(kind: u64) -> bool
    ensures { result ≡ is_frame_kind kind }
{
    (WR_FRONT_END..=WR_RECEIVER).contains(&kind)
}

pub fn uses_address(kind: u64) -> bool
    ensures { result ≡ uses_address kind }
{
    matches!(kind, WR_REGISTER | RD_REGISTER | RD_FIFO)
}

// Field 4: the address where the command uses it, else 0.
pub fn field4(order: Order) -> u64
    ensures { result ≡ field4 order }
{
    if uses_address(order.kind) {
        order.address
    } else {
        0
    }
}

// How many bits of Field 5 an order gives as a number; 0 where it gives none.
pub fn value_width(kind: u64) -> u32
    ensures { (result ≡ value_width kind) × (result ≤ 27) }
{
    match kind {
        WR_REGISTER => 16,
        WR_FIFO => 27,
        GLOBAL_RESET_FE => 4,
        _ => 0,
    }
}

// The bits of a frame, by CNT.
pub fn frame_count(kind: u64, cnt: u16) -> u64
    ensures { (result ≡ frame_count kind cnt) × (result ≤ 65528) }
{
    let n = cnt as u64;
    if kind == WR_RECEIVER {
        return n % 8192 * 8;
    }
    n / 8 + n % 8 * 8
}
