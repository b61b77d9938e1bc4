// The number that a word of a text stands for, hexadecimal or decimal.
#![tactic(auto)]

ghost use Rattle.std.specs.Prelude.{◌≡◌, ◌≤◌, ◌<◌, IfSome, unwrap_or};
ghost use Rattle.text_numbers.specs.Numbers.{digit_of, with_digit, number_of, sized};

// The number that a digit stands for, of either case.
pub fn digit(character: u8) -> Option<u64>
    ensures { (unwrap_or result 16 ≡ digit_of character) × IfSome result (λ d. d < 16) }
{
    char::from(character).to_digit(16).map(u64::from)
}

// A number that reached this stays as it is.
const NUMBER_LIMIT: u64 = 1 << 56;

fn with_digit(base: u64, number: u64, digit: u64) -> u64
    requires { (base ≤ 16) × (digit < base) }
    ensures { result ≡ with_digit base number digit }
{
    if number < NUMBER_LIMIT {
        return number * base + digit;
    }
    number
}

pub fn read_number(base: u64, word: &[u8]) -> Option<u64>
    requires { base ≤ 16 }
    ensures { result ≡ number_of base word.now }
{
    if word.is_empty() {
        return None;
    }
    let mut value = 0;
    for character in word {
        let next = digit(*character)?;
        if base <= next {
            return None;
        }
        value = with_digit(base, value, next);
    }
    Some(value)
}

// A number, if it has the size of a field.
pub fn sized(width: u32, number: Option<u64>) -> Option<u64>
    requires { width ≤ 27 }
    ensures { result ≡ sized width number }
{
    number.filter(|value| *value < 1 << width)
}
