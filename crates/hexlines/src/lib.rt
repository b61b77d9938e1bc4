// A hexadecimal line read into a buffer. No public call asks anything of its caller.
#![tactic(auto)]

ghost use Rattle.std.specs.Prelude.{◌≡◌, ◌≤◌, length};
ghost use Rattle.line_meanings.specs.Line.{line_bytes, read_as, read_of, read_into};
ghost use Rattle.hexlines.specs.declared.ReadFault.TheVariants.{Line};
ghost use Rattle.hexlines.specs.Reading.{read_fault_number, reading_as};

use line_meanings::{LINE_BYTES, LineFault, LineSoFar};

// Why a line is not read into a buffer: it is refused, or the buffer has no room for the longest line.
#[derive(Clone, Copy, PartialEq, Eq)]
pub enum ReadFault {
    Line(LineFault),
    NoRoom,
}

impl From<LineFault> for ReadFault {
    ghost from_gives = { λ fault result. result ≡ Line fault };

    fn from(fault: LineFault) -> ReadFault {
        ReadFault::Line(fault)
    }
}

impl ReadFault {
    // The number of the refusal.
    pub fn number(self) -> u8
        ensures { result ≡ read_fault_number self }
    {
        match self {
            ReadFault::Line(fault) => fault.number(),
            ReadFault::NoRoom => 4,
        }
    }
}

// Reads a hexadecimal line, which has no line feed, into the start of a buffer with room for the longest. A refused line changes nothing.
fn read_with_room(line: &[u8], bytes: &mut [u8]) -> Result<usize, LineFault>
    requires { line_bytes ≤ length bytes.old }
    ensures { read_as result bytes.new ≡ read_of line.now bytes.old }
{
    let read = line_characters::with_characters(LineSoFar::empty(), line);
    let count = read.answer()?;
    output::put_bytes(bytes, 0, &read.bytes[..count]);
    Ok(count)
}

// The same into a buffer of any length: fewer than 32 bytes are number 4. A refusal changes nothing.
pub fn read_line(line: &[u8], bytes: &mut [u8]) -> Result<usize, ReadFault>
    ensures { reading_as result bytes.new ≡ read_into line.now bytes.old }
{
    if bytes.len() < LINE_BYTES {
        return Err(ReadFault::NoRoom);
    }
    let count = read_with_room(line, bytes)?;
    Ok(count)
}

// The same into a buffer of the longest line's bytes.
pub fn hex_line(line: &[u8], bytes: &mut [u8; LINE_BYTES]) -> Result<usize, LineFault>
    ensures { read_as result bytes.new ≡ read_of line.now bytes.old }
{
    read_with_room(line, bytes)
}
