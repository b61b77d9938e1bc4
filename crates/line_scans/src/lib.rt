// A block of input scanned for the rest of a line.
#![tactic(auto)]

ghost use Rattle.std.specs.Prelude.{◌≡◌, ◌+◌, ◌≤◌, length, drop};
ghost use Rattle.line_meanings.specs.Lines.{up_to_line_feed, scan_of};

use line_meanings::{LineSoFar, Scanned};

// The place of the next line feed, or the block's end. `position` took twice the time of this loop.
fn line_end(block: &[u8], at: usize) -> usize
    requires { at ≤ length block.now }
    ensures { result ≡ at + length (up_to_line_feed (drop at block.now)) }
{
    for end in at..block.len() {
        if block[end] == output::LINE_FEED {
            return end;
        }
    }
    block.len()
}

// Scans a block from a place on, up to and with the next line feed, or to the block's end.
// From a place past the block's end nothing is scanned.
pub fn scan(before: LineSoFar, block: &[u8], at: usize) -> Scanned
    ensures { result ≡ scan_of before block.now at }
{
    if block.len() < at {
        return Scanned {
            line: before,
            next: at,
            complete: false,
        };
    }
    let end = line_end(block, at);
    let line = line_characters::with_characters(before, &block[at..end]);
    if end < block.len() {
        return Scanned {
            line,
            next: end + 1,
            complete: true,
        };
    }
    Scanned {
        line,
        next: end,
        complete: false,
    }
}
