// A run of `compose` but for its reads and writes, from the characters of a text of orders: its blocks and its end.
#![tactic(auto)]

ghost use Rattle.compositions.specs.Compositions.{WellFormed};
ghost use Rattle.line_ends.specs.LineEnds.{Lent};
ghost use Rattle.order_texts.specs.Running.{ComposesBlock, EndsInput};

use compositions::{Composition, OUTPUT_LIMIT};

// The characters of a block, up to its end or to a refusal.
pub fn compose_block(
    from: Composition,
    input: &[u8],
    line: &mut [u8],
    frame: &mut [u8],
    out: &mut [u8; OUTPUT_LIMIT],
) -> Composition
    requires { WellFormed from out.old × Lent line.old frame.old }
    ensures { ComposesBlock from line.old out.old input.now result line.new out.new }
{
    let mut state = from;
    for character in input {
        if state.is_over() {
            return state;
        }
        if *character == output::LINE_FEED {
            state = line_ends::end_line(state, line, frame, out);
        } else {
            state.line = state.line.with_character(line, *character);
        }
    }
    state
}

// The input has ended, and with it a line that has begun.
pub fn end_input(
    state: Composition,
    line: &[u8],
    frame: &mut [u8],
    out: &mut [u8; OUTPUT_LIMIT],
) -> Composition
    requires { WellFormed state out.old × Lent line.now frame.old }
    ensures { EndsInput state line.now out.old result out.new }
{
    if state.is_over() || state.line.length == 0 {
        return state;
    }
    line_ends::end_line(state, line, frame, out)
}
