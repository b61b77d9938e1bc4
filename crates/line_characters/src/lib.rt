// A line as far as it is read, with more characters: digits, and characters that are none.
#![tactic(auto)]

ghost use Rattle.std.specs.Prelude.{◌≡◌, ◌<◌, true, false, MatchOption};
ghost use Rattle.line_meanings.specs.Digits.{is_digit, digit_of};
ghost use Rattle.line_meanings.specs.Lines.{with_characters};

use line_meanings::{DIGIT_LIMIT, LineNotes, LineSoFar};

// The number that a digit stands for, if the character is one.
fn digit(character: u8) -> Option<u8>
    ensures { MatchOption result (is_digit character ≡ false) (λ n. (is_digit character ≡ true) × (n ≡ digit_of character) × (n < 16)) }
{
    // no branch for each kind of digit, for speed
    let number = (b'0' <= character) & (character <= b'9');
    let letter = (b'A' <= character) & (character <= b'F');
    if !(number | letter) {
        return None;
    }
    Some(if number {
        character - b'0'
    } else {
        character - b'A' + 10
    })
}

// More characters, one after the other. A byte takes its two digits from the low end. The notes are kept in locals, for speed.
pub fn with_characters(before: LineSoFar, characters: &[u8]) -> LineSoFar
    ensures { result ≡ with_characters before characters.now }
{
    let LineNotes {
        mut length,
        mut place,
        character: mut first,
    } = before.notes;
    let mut line = before;
    for character in characters {
        length = length.wrapping_add(1);
        let Some(digit) = digit(*character) else {
            if place == 0 {
                first = *character;
                place = length;
            }
            line.wrong = true;
            continue;
        };
        let n = line.digits;
        if DIGIT_LIMIT <= n {
            line.digits = DIGIT_LIMIT + 1;
            continue;
        }
        let held = line.bytes[n / 2];
        line.bytes[n / 2] = held % 16 * 16 + digit;
        line.digits = n + 1;
    }
    line.notes = LineNotes {
        length,
        place,
        character: first,
    };
    line
}
