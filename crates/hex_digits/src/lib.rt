// Numbers in hexadecimal digits.
#![tactic(auto)]

ghost use Rattle.std.specs.Prelude.{◌≡◌, ◌+◌, ◌≤◌, ◌<◌, length};
ghost use Rattle.std.proofs.lemmas.List.Edits.{sets};
ghost use Rattle.hex_digits.specs.Digits.{character_of, characters_of};

fn character(digit: u8) -> u8
    requires { digit < 16 }
    ensures { result ≡ character_of digit }
{
    if digit < 10 {
        b'0' + digit
    } else {
        b'A' + (digit - 10)
    }
}

// A number's digits at a place of a buffer, as many as the width says; the last is written first.
pub fn put_digits(out: &mut [u8], at: usize, number: u64, width: usize)
    requires { at + width ≤ length out.old }
    ensures { out.new ≡ sets out.old at (characters_of number width) }
{
    let mut quotient = number;
    // By the digits that are left: their count is known where the width is, and then the loop is laid out digit by digit.
    for left in (0..width).rev() {
        out[at + left] = character((quotient % 16) as u8);
        quotient /= 16;
    }
}
