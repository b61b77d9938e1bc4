// The sentence that standard error gets for a refused line: the first character that is none of 0-9 and A-F.
#![tactic(auto)]

ghost use Rattle.std.specs.Prelude.{◌≡◌, ◌+◌, ◌≤◌, length};
ghost use Rattle.output.specs.Block.{block, put_all};
ghost use Rattle.wrong_characters.specs.WrongCharacters.{character_text, wrong_character};

use line_meanings::LineNotes;

// What a character is that is no digit: those that captures have most often by their names, any other by its number.
#[tactic(auto, unfolding(crate::specs::WrongCharacters::character_text))]
fn put_character(out: &mut [u8], at: usize, character: u8) -> usize
    requires { at + length (character_text character) ≤ length out.old }
    ensures { block out.new result ≡ put_all out.old at (character_text character) }
{
    match character {
        b'\r' => output::put_bytes(out, at, b"a carriage return\n"),
        b' ' => output::put_bytes(out, at, b"a space\n"),
        b'\t' => output::put_bytes(out, at, b"a tab\n"),
        b'a'..=b'z' => output::put_bytes(out, at, b"a lower-case letter\n"),
        _ => decimal_digits::put_labelled(
            out,
            at,
            b"byte ",
            character as u64,
            b", none of 0-9 and A-F\n",
        ),
    }
}

// Number 7: the first character that is none of 0-9 and A-F.
pub fn put_wrong_character(out: &mut [u8], at: usize, notes: LineNotes) -> usize
    requires { at + length (wrong_character notes) ≤ length out.old }
    ensures { block out.new result ≡ put_all out.old at (wrong_character notes) }
{
    let place = decimal_digits::put_labelled(out, at, b"character ", notes.place, b" is ");
    put_character(out, place, notes.character)
}
