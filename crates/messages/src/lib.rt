// The sentence that standard error gets for a refused line of hexadecimal digits.
#![tactic(auto)]

ghost use Rattle.std.specs.Prelude.{◌≡◌, ◌+◌, ◌≤◌, length};
ghost use Rattle.output.specs.Block.{block, put_all};
ghost use Rattle.messages.specs.Sentences.{wrong_length, reason_of, sentence_of};

use line_meanings::LineNotes;

// Number 8: the count of digits.
fn put_wrong_length(out: &mut [u8], at: usize, notes: LineNotes) -> usize
    requires { at + length (wrong_length notes) ≤ length out.old }
    ensures { block out.new result ≡ put_all out.old at (wrong_length notes) }
{
    if 64 < notes.length {
        return decimal_digits::put_labelled(
            out,
            at,
            b"the count of digits is ",
            notes.length,
            b", above 64\n",
        );
    }
    decimal_digits::put_labelled(
        out,
        at,
        b"the count of digits is ",
        notes.length,
        b", which is odd\n",
    )
}

#[tactic(auto, unfolding(crate::specs::Sentences::reason_of))]
fn put_reason(out: &mut [u8], at: usize, number: u8, notes: LineNotes) -> usize
    requires { at + length (reason_of number notes) ≤ length out.old }
    ensures { block out.new result ≡ put_all out.old at (reason_of number notes) }
{
    match number {
        7 => wrong_characters::put_wrong_character(out, at, notes),
        8 => put_wrong_length(out, at, notes),
        _ => output::put_bytes(out, at, b"its bits pass the last clock cycle\n"),
    }
}

// The whole sentence: the line's number, and why it is refused.
pub fn put_sentence(out: &mut [u8], at: usize, number: u8, line: u64, notes: LineNotes) -> usize
    requires { at + length (sentence_of number line notes) ≤ length out.old }
    ensures { block out.new result ≡ put_all out.old at (sentence_of number line notes) }
{
    let place = decimal_digits::put_labelled(out, at, b"line ", line, b": ");
    put_reason(out, place, number, notes)
}
