// What a window and a body mean, and the registers of five and of four bits that receive them.
#![tactic(auto)]

ghost use Rattle.std.specs.Prelude.{◌≡◌, true, ◌<◌};
ghost use Rattle.bits.specs.Bits.{shifted};
ghost use Rattle.windows.specs.Windows.{is_lv1, position_of, meaning_of, is_fast};

// What a window means.
#[derive(Clone, Copy)]
pub enum Meaning {
    Quiet,
    // An LV1. `position`: which of its five received bits was hit, from 1; 0 for an exact one.
    Trigger { position: u8 },
    Header,
}

// The window with a new bit at its low end, and without its oldest.
pub fn window_with(window: u8, bit: u8) -> u8
    requires { bit < 2 }
    ensures { result ≡ shifted 5 window bit }
{
    ((window << 1) | bit) & 31
}

pub fn nibble_with(nibble: u8, bit: u8) -> u8
    requires { bit < 2 }
    ensures { result ≡ shifted 4 nibble bit }
{
    ((nibble << 1) | bit) & 15
}

// An arm for each, of which the compiler makes one look-up; of an or-pattern it made several tests (`stretches` has the time).
fn is_lv1(window: u8) -> bool
    ensures { result ≡ is_lv1 window }
{
    match window {
        0b11101 => true,
        0b11100 => true,
        0b11111 => true,
        0b11001 => true,
        0b10101 => true,
        0b01101 => true,
        _ => false,
    }
}

// Which of an LV1's bits was hit: the one in which it differs from the exact LV1.
fn position(window: u8) -> u8
    requires { is_lv1 window ≡ true }
    ensures { result ≡ position_of window }
{
    let difference = window ^ 0b11101;
    if difference == 0 {
        return 0;
    }
    5 - u8::trailing_zeros(difference) as u8
}

pub fn classify(window: u8) -> Meaning
    ensures { result ≡ meaning_of window }
{
    if is_lv1(window) {
        return Meaning::Trigger {
            position: position(window),
        };
    }
    if window == 0b10110 {
        return Meaning::Header;
    }
    Meaning::Quiet
}

// Whether a body is that of BCR, ECR, CAL or SYNC.
pub fn is_fast(body: u8) -> bool
    ensures { result ≡ is_fast body }
{
    match body {
        0b0001 => true,
        0b0010 => true,
        0b0100 => true,
        0b1000 => true,
        _ => false,
    }
}
