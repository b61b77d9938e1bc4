// Whether a sound state may hold a recogniser.
#![tactic(auto)]

ghost use Rattle.std.specs.Prelude.{◌≡◌, ◌<◌, ◌^◌};
ghost use Rattle.fit_recognisers.specs.Fit.{has_field5, keeps, has_groups, nibble_fits, field4_fits, field5_fits, fit_of};

use recogniser::{Phase, Recogniser};

// Two to the power of a count of bits.
fn power(count: u32) -> u32
    requires { count < 32 }
    ensures { result ≡ 2 ^ count }
{
    1 << count
}

// Whether the command has a Field 5.
fn has_field5(command: u8) -> bool
    ensures { result ≡ has_field5 command }
{
    matches!(command, 0..=6 | 10)
}

// Whether the command keeps the bits of its Field 5.
fn keeps_bits(command: u8) -> bool
    ensures { result ≡ keeps command }
{
    matches!(command, 0 | 2 | 10)
}

// Whether the command carries each bit for eight cycles.
fn has_groups(command: u8) -> bool
    ensures { result ≡ has_groups command }
{
    matches!(command, 4 | 5)
}

// Whether the bits of a body, Field 3 or Field 4 are fewer than four and fit their width.
fn nibble_fits(r: Recogniser) -> bool
    ensures { result ≡ nibble_fits r }
{
    r.count < 4 && (r.shift as u32) < power(r.count)
}

fn field4_fits(r: Recogniser) -> bool
    ensures { result ≡ field4_fits r }
{
    nibble_fits(r) && r.command < 16
}

fn field5_fits(r: Recogniser, cnt: u16) -> bool
    ensures { result ≡ field5_fits r cnt }
{
    let command = r.command;
    if !has_field5(command) || 16 <= r.address || slow_fields::length(command, cnt) <= r.count {
        return false;
    }
    if keeps_bits(command) {
        return r.held < power(r.count);
    }
    if has_groups(command) {
        return groups::is_left_by_some(r.group, r.count % 8);
    }
    true
}

// Whether a sound state may hold this recogniser, by the present contents of the CNT register.
#[tactic(auto, unfolding(crate::specs::Fit::fit_of))]
pub fn fit(r: Recogniser, cnt: u16) -> bool
    ensures { result ≡ fit_of r cnt }
{
    match r.phase {
        Phase::Hunt => r.shift < 32,
        Phase::Body | Phase::Field3 => nibble_fits(r),
        Phase::Field4 => field4_fits(r),
        Phase::Field5 => field5_fits(r, cnt),
    }
}
