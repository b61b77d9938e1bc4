// The end of a line of a text of orders, by a run of `compose` under way.
#![tactic(auto)]

ghost use Rattle.compositions.specs.Compositions.{WellFormed};
ghost use Rattle.line_ends.specs.LineEnds.{Lent, EndsLine};

use compositions::{Composition, OUTPUT_LIMIT};
use order_messages::Reason;
use order_refusals::Refusal;

// The present line has ended.
pub fn end_line(
    state: Composition,
    line: &[u8],
    frame: &mut [u8],
    out: &mut [u8; OUTPUT_LIMIT],
) -> Composition
    requires { WellFormed state out.old × Lent line.now frame.old }
    ensures { EndsLine state line.now out.old result out.new }
{
    let lines = state.lines.wrapping_add(1);
    if state.line.long {
        let refusal = Refusal::Line {
            line: lines,
            reason: Reason::LongLine,
        };
        return state.passed(lines, Some(refusal));
    }
    let length = state.line.length;
    match order_lines::read_line(&line[..length], frame) {
        Err(fault) => state.passed(lines, Some(Refusal::of_fault(lines, fault))),
        Ok(None) => state.passed(lines, None),
        Ok(Some(read)) => state.with_order(lines, read.order, &frame[..read.bytes], out),
    }
}
