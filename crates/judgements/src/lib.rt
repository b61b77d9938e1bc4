// What the program that accepts streams says in the end: the line that it prints, and the sentence that standard error gets.
#![tactic(auto)]

ghost use Rattle.std.specs.Prelude.{◌≡◌, length};
ghost use Rattle.output.specs.Block.{block_length, block, put_all};
ghost use Rattle.judgements.specs.Judgement.{text_of, message_of};

use line_meanings::LineNotes;

// What is said in the end: a refusal's number, 0 for none; the place of a pattern at fault; or the number of a line that was refused, from 1, and its notes.
// It is numbers, and no enum, as the definitions (`judged_of`, `text_of`, `message_of`) take them.
#[derive(Clone, Copy)]
pub struct Judgement {
    pub number: u8,
    pub place: u64,
    pub line: u64,
    pub notes: LineNotes,
}

impl Judgement {
    // The line that a refusal prints; the answer is how many bytes it takes.
    pub fn put_text(self, out: &mut [u8]) -> usize
        requires { length out.old ≡ block_length }
        ensures { block out.new result ≡ put_all out.old 0 (text_of self) }
    {
        if 13 <= self.number {
            return layout::fault_line(out, 0, self.number, self.place);
        }
        if 7 <= self.number {
            return layout::refused_line(out, 0, self.number, self.line);
        }
        0
    }

    // The sentence of a refusal; the answer is how many bytes it takes.
    pub fn put_message(self, out: &mut [u8]) -> usize
        requires { length out.old ≡ block_length }
        ensures { block out.new result ≡ put_all out.old 0 (message_of self) }
    {
        if 13 <= self.number {
            return fault_messages::put_fault(out, 0, self.number, self.place);
        }
        messages::put_sentence(out, 0, self.number, self.line, self.notes)
    }
}
