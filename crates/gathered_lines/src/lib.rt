// The present line of a text, gathered character by character.
#![tactic(auto)]

ghost use Rattle.std.specs.Prelude.{◌≡◌, ◌≤◌, length};
ghost use Rattle.output.specs.Ascii.{line_feed};
ghost use Rattle.text_words.specs.Words.{line_limit};
ghost use Rattle.gathered_lines.specs.Gathering.{empty_line, Gathers};

use text_words::LINE_LIMIT;

// The present line so far, in a buffer that is lent: its characters up to the limit, and whether it has more. The memory of a run is fixed and its caller's,
// so that the length stands beside the buffer.
#[derive(Clone, Copy)]
pub struct Gathered {
    pub length: usize,
    pub long: bool,
}

impl Gathered {
    pub fn empty() -> Gathered
        ensures { result ≡ empty_line }
    {
        Gathered {
            length: 0,
            long: false,
        }
    }

    // A character more.
    pub fn with_character(self, line: &mut [u8], character: u8) -> Gathered
        requires { (self.length ≤ line_limit) × (length line.old ≡ line_limit) × (character ≡ line_feed → ⊥) }
        ensures { Gathers self line.old character result line.new }
    {
        let n = self.length;
        if LINE_LIMIT <= n {
            return Gathered {
                length: n,
                long: true,
            };
        }
        line[n] = character;
        Gathered {
            length: n + 1,
            long: self.long,
        }
    }
}
