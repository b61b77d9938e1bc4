// A number in decimal digits between two texts.
#![tactic(auto)]

ghost use Rattle.std.specs.Prelude.{◌≡◌, ◌+◌, ◌≤◌, length};
ghost use Rattle.output.specs.Block.{block, put_all};
ghost use Rattle.decimal_digits.specs.Decimal.{labelled};

// A number in decimal digits, as few as it needs, between two texts.
pub fn put_labelled(out: &mut [u8], at: usize, label: &[u8], number: u64, after: &[u8]) -> usize
    requires { at + length (labelled label.now number after.now) ≤ length out.old }
    ensures { block out.new result ≡ put_all out.old at (labelled label.now number after.now) }
{
    let mut digits = [0u8; 20];
    let n = io::decimal(number, &mut digits);
    let place = output::put_bytes(out, at, label);
    let end = output::put_bytes(out, place, &digits[..n]);
    output::put_bytes(out, end, after)
}
