// Frame bits in the tray, and the part of the tray that a frame fills.
#![tactic(auto)]

ghost use Rattle.std.specs.Prelude.{◌≡◌, ◌<◌};
ghost use Rattle.frames.specs.Tray.{with_bit, stored_of, tray_of, part_of};

use recogniser::FrameBit;

// A byte with one bit of it set to the frame's bit; places count from the highest.
fn with_bit(byte: u8, place: u32, bit: u32) -> u8
    requires { place < 8 }
    ensures { result ≡ with_bit byte place bit }
{
    let weight = 1u8 << (7 - place);
    let rest = byte - byte / weight % 2 * weight;
    if bit == 1 {
        return rest + weight;
    }
    rest
}

// The tray with the frame's bit at a place; a place past its end changes nothing.
pub fn store_bit(tray: &mut [u8], place: u32, bit: u32)
    ensures { tray.new ≡ stored_of tray.old place bit }
{
    let at = (place / 8) as usize;
    if tray.len() <= at {
        return;
    }
    let k = place % 8;
    if k == 0 {
        tray[at] = with_bit(0, k, bit);
        return;
    }
    let byte = tray[at];
    tray[at] = with_bit(byte, k, bit);
}

// What a cycle's frame bit does to the tray.
pub fn keep(tray: &mut [u8], frame: FrameBit)
    ensures { tray.new ≡ tray_of tray.old frame }
{
    match frame {
        FrameBit::None => {}
        FrameBit::At { place, bit } => store_bit(tray, place, bit),
    }
}

// The part of the tray that a frame of so many bits fills; empty where the tray has fewer.
pub fn frame_part(tray: &[u8], bits: usize) -> &[u8]
    ensures { result.now ≡ part_of tray.now bits }
{
    let mut n = bits / 8 + (bits % 8 + 7) / 8;
    if tray.len() < n {
        n = 0;
    }
    &tray[..n]
}
