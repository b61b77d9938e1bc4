// The commands that Field 3 names, the length of Field 5, and what is kept of it.
#![tactic(auto)]

ghost use Rattle.std.specs.Prelude.{◌≡◌, ◌<◌};
ghost use Rattle.slow_fields.specs.Slow.{is_slow, is_frame, length_of, kept_of};

// Whether Field 3 names a Slow command.
pub fn is_slow(command: u8) -> bool
    ensures { result ≡ is_slow command }
{
    if command <= 6 {
        return true;
    }
    if 8 <= command {
        return command <= 10;
    }
    false
}

// Whether the command carries frame bits: WrFrontEnd, RdFrontEnd, WrReceiver.
pub fn is_frame(command: u8) -> bool
    ensures { result ≡ is_frame command }
{
    if 4 <= command {
        return command <= 6;
    }
    false
}

// The cycles of Field 5, by the command and the CNT register. Tests in a row: with or-patterns here and in `windows`,
// among other forms of the path, front-end frames took 1.2 of the time.
pub fn length(command: u8, cnt: u16) -> u32
    ensures { result ≡ length_of command cnt }
{
    let n = cnt as u32;
    if command <= 1 {
        return 16;
    }
    if command <= 3 {
        return 27;
    }
    if command <= 5 {
        return n / 8 * 8 + n % 8 * 8 * 8;
    }
    if command == 6 {
        return n % 8192 * 8;
    }
    if command == 10 {
        return 4;
    }
    0
}

// The bits kept of Field 5 with one bit more; a read keeps none.
pub fn kept(command: u8, held: u32, bit: u8) -> u32
    requires { bit < 2 }
    ensures { result ≡ kept_of command held bit }
{
    if command == 1 {
        return 0;
    }
    if command == 3 {
        return 0;
    }
    held % 2147483648 * 2 + bit as u32
}
