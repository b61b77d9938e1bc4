// The word by which the program that reads replies is told how many data bits it expects.
#![tactic(auto)]

ghost use Rattle.std.specs.Prelude.{◌≡◌, true, IfSome, unwrap_or};
ghost use Rattle.replies.specs.Replies.{expected_fits};
ghost use Rattle.reply_words.specs.Words.{data_bits};

// The data bits that a word asks for: one to four decimal digits, 1 to 8191; none for any other word.
pub fn data_bits(word: &[u8]) -> Option<u32>
    ensures value { unwrap_or result 0 ≡ data_bits word.now }
    ensures fits { IfSome result (λ bits. expected_fits bits ≡ true) }
{
    if 4 < word.len() {
        return None;
    }
    let number = text_numbers::read_number(10, word)?;
    if number == 0 {
        return None;
    }
    if replies::MOST_BITS < number {
        return None;
    }
    Some(number as u32)
}
