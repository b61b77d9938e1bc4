// The bits of one order, written and counted.
#![tactic(auto)]

ghost use Rattle.std.specs.Prelude.{◌≡◌, ◌+◌, length};
ghost use Rattle.orders.specs.Streams.{field_frame, field5_bits, slow_fields, command_bits, order_bits};
ghost use Rattle.orders.specs.Composing.{room_fits};
ghost use Rattle.stream_writer.specs.Writer.{Fits, Wrote};
ghost use Rattle.composing.specs.Checked.{ordered, SomeFit, SlowFit, FrameFit, WidthOf, Room, capped};

use order_kinds::WR_RECEIVER;
use orders::Order;
use records::{KIND_FAST, KIND_LV1, KIND_SLOW};
use stream_writer::Writer;

// A stream's bits are at most the clock's cycles.
const BIT_LIMIT: u64 = 0x1_0000_0000_0000;

// A frame's bits: a WrReceiver's are whole bytes; front-end bits last eight cycles each.
fn put_frame(writer: Writer, out: &mut [u8], order: Order, lent: &[u8]) -> Writer
    requires { Fits writer × FrameFit order (length lent.now) × Room writer out.old (field_frame (ordered order lent.now)) }
    ensures { Wrote writer out.old (field_frame (ordered order lent.now)) result out.new }
{
    if order.kind == WR_RECEIVER {
        return writer.put_bytes(out, lent, (order.bits / 8) as usize);
    }
    writer.put_eightfold(out, lent, order.bits as usize)
}

// Field 5: a frame's bits, a number, or zeros.
fn put_field5(writer: Writer, out: &mut [u8], order: Order, lent: &[u8]) -> Writer
    requires { Fits writer × SlowFit order (length lent.now) × Room writer out.old (field5_bits (ordered order lent.now)) }
    ensures { Wrote writer out.old (field5_bits (ordered order lent.now)) result out.new }
{
    if order_kinds::is_frame_kind(order.kind) {
        return put_frame(writer, out, order, lent);
    }
    let width = order_kinds::value_width(order.kind);
    if 0 < width {
        return writer.put_number(out, width, order.value);
    }
    let zeros = slow_fields::length((order.kind - KIND_SLOW as u64) as u8, 0);
    writer.put_zeros(out, zeros as usize)
}

// Fields 3, 4 and 5 of a Slow; Field 4 is zeros where the command does not use it.
fn put_fields(writer: Writer, out: &mut [u8], order: Order, lent: &[u8]) -> Writer
    requires { Fits writer × SlowFit order (length lent.now) × Room writer out.old (slow_fields (ordered order lent.now)) }
    ensures { Wrote writer out.old (slow_fields (ordered order lent.now)) result out.new }
{
    let field3 = writer.put_number(out, 4, order.kind - KIND_SLOW as u64);
    let field4 = field3.put_number(out, 4, order_kinds::field4(order));
    put_field5(field4, out, order, lent)
}

// A command's bits.
fn put_command(writer: Writer, out: &mut [u8], order: Order, lent: &[u8]) -> Writer
    requires { Fits writer × SomeFit order (length lent.now) × Room writer out.old (command_bits (ordered order lent.now)) }
    ensures { Wrote writer out.old (command_bits (ordered order lent.now)) result out.new }
{
    if order.kind == KIND_LV1 as u64 {
        return writer.put_number(out, 5, 0b11101);
    }
    let header = writer.put_number(out, 5, 0b10110);
    if order.kind < KIND_SLOW as u64 {
        return header.put_number(out, 4, order.kind - KIND_FAST as u64);
    }
    let body = header.put_number(out, 4, 0b1011);
    put_fields(body, out, order, lent)
}

// An order's bits: its zeros and its command.
pub fn put_order(writer: Writer, out: &mut [u8], order: Order, lent: &[u8]) -> Writer
    requires { Fits writer × SomeFit order (length lent.now) × Room writer out.old (order_bits (ordered order lent.now)) }
    ensures { Wrote writer out.old (order_bits (ordered order lent.now)) result out.new }
{
    let ahead = writer.put_zeros(out, order.zeros as usize);
    put_command(ahead, out, order, lent)
}

// How many bits a fit order's command has.
pub fn command_width(order: Order, bytes: usize) -> u64
    requires { SomeFit order bytes }
    ensures { WidthOf order result }
{
    if order.kind == KIND_LV1 as u64 {
        return 5;
    }
    if order.kind < KIND_SLOW as u64 {
        return 9;
    }
    if order.kind == WR_RECEIVER {
        return 17 + order.bits;
    }
    if order_kinds::is_frame_kind(order.kind) {
        return 17 + order.bits * 8;
    }
    17 + slow_fields::length((order.kind - KIND_SLOW as u64) as u8, 0) as u64
}

// A count of bits with more of them; all counts beyond the clock's are one.
pub fn add_bits(bits: u64, more: u64) -> u64
    ensures { result ≡ capped (bits + more) }
{
    match bits.checked_add(more) {
        Some(sum) if sum <= BIT_LIMIT => sum,
        _ => BIT_LIMIT + 1,
    }
}

// Whether so many bits are no more than the clock's cycles and fit so many bytes.
pub fn room_fits(bits: u64, bytes: usize) -> bool
    ensures { result ≡ room_fits bits bytes }
{
    bits <= BIT_LIMIT && bits.div_ceil(8) <= bytes as u64
}
