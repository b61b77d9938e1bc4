// An order off the words that a caller lends, and the bytes lent for its frame.
#![tactic(auto)]

ghost use Rattle.std.specs.Prelude.{◌≡◌, drop};
ghost use Rattle.orders.specs.Fields.{order_in};

use orders::Order;

// The words of an order: kind, zeros, address, value, frame, bits.
pub const ORDER_WORDS: usize = 6;

// The order that some words begin with; fewer than six are no command.
#[tactic(auto, unfolding(orders::specs::Fields::order_in))]
pub fn read_order(words: &[u64]) -> Order
    ensures { result ≡ order_in words.now }
{
    let [kind, zeros, address, value, frame, bits, ..] = *words else {
        return Order {
            kind: 0,
            zeros: 0,
            address: 0,
            value: 0,
            frame: 0,
            bits: 0,
        };
    };
    Order {
        kind,
        zeros,
        address,
        value,
        frame,
        bits,
    }
}

// The bytes lent for a frame, from its place on; none from a place past their end.
pub fn lent_from(frames: &[u8], frame: u64) -> &[u8]
    ensures { result.now ≡ drop frame frames.now }
{
    frames.get(frame as usize..).unwrap_or(&[])
}
