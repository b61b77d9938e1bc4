// Reads and writes that go on after an interruption, the loop that reads an input block by block, and messages on standard error. A contract cannot say what the system reads or writes.
#![tactic(auto)]

ghost use Rattle.std.specs.Prelude.{ℕ, ◌≤◌, IfOk, IsOk, OnOk, List, [], ◌++◌, length};
ghost use Rattle.std.specs.Io.{ReadsAtMost};

use std::fs::File;
use std::io::{ErrorKind, Read, Stdin, Write};
use std::{fmt, io};

// A proved loop has to end, and nothing says that an input or the interruptions of a call do: no run uses this number up.
pub const TURNS: u64 = u64::MAX;

// An input that is open: standard input, or a file by its name.
#[derive(Drop)]
pub enum Input {
    Standard(Stdin),
    Named(File),
}

impl Read for Input {
    fn read(&mut self, input: &mut [u8]) -> io::Result<usize>
        ensures bound { ReadsAtMost result input.new }
    {
        match self {
            Input::Standard(stdin) => stdin.read(input),
            Input::Named(file) => file.read(input),
        }
    }
}

// Why the system ended a run: a read failed, a write to standard output did, or a loop's turns are used up.
#[derive(Clone, Copy)]
pub enum RunError {
    Input(io::Error),
    Output(io::Error),
    Turns,
}

// A read, made again if it was interrupted: how many characters it brought, 0 at the input's end.
pub fn read_input(from: &mut Input, input: &mut [u8]) -> Result<usize, RunError>
    ensures { IfOk result (λ count. count ≤ length input.old) }
{
    let mut last = io::Error::from(ErrorKind::Interrupted);
    for _ in 0..TURNS {
        match from.read(input) {
            Ok(count) => return Ok(count),
            Err(error) => {
                if error.kind() != ErrorKind::Interrupted {
                    return Err(RunError::Input(error));
                }
                last = error;
            }
        }
    }
    Err(RunError::Input(last))
}

// What takes the characters of an input, block by block.
pub trait TakesBlocks {
    // That it took these characters, one after the other, since it was as it was.
    ghost took: { Self → List ℕ → Self → Type 0 };

    fn take_block(&mut self, block: &[u8])
        requires { (from : Self) × (characters : List ℕ) × took from characters self.old }
        ensures { (from : Self) (characters : List ℕ) → took from characters self.old → took from (characters ++ block.now) self.new };

    // Whether it needs no more of them.
    fn is_over(&self) -> bool;
}

// Reads an input that is open, up to its end or until no more is needed.
pub fn read_blocks<T: TakesBlocks>(
    taker: &mut T,
    from: &mut Input,
    input: &mut [u8],
) -> Result<(), RunError>
    requires { T.took taker.old [] taker.old }
    ensures { OnOk result ((characters : List ℕ) × T.took taker.old characters taker.new) }
{
    for _ in 0..TURNS {
        let count = read_input(from, input)?;
        taker.take_block(&input[..count]);
        if count == 0 || taker.is_over() {
            return Ok(());
        }
    }
    Err(RunError::Turns)
}

// Writes all, going on after a short write and after an interrupted one.
fn write_to(stream: &mut impl Write, text: &[u8]) -> io::Result<()> {
    // std has words of its own for a write that takes nothing: its kind is told.
    stream.write_all(text).map_err(|error| match error.kind() {
        ErrorKind::WriteZero => io::Error::from(ErrorKind::WriteZero),
        _ => error,
    })
}

// Writes all to standard output.
pub fn write_whole(rt: HostRuntime, text: &[u8]) -> Result<(), RunError> {
    write_to(&mut rt.stdout(), text).map_err(RunError::Output)
}

// The last that standard output is asked. The library closes it nowhere, so that a write which a file system fails only then is not told.
fn close_output(rt: HostRuntime) -> Result<(), RunError> {
    match rt.stdout().flush() {
        Err(error) if error.kind() != ErrorKind::Interrupted => Err(RunError::Output(error)),
        _ => Ok(()),
    }
}

// The end of standard output: whether all was written and it could be flushed.
pub fn end_output(rt: HostRuntime, written: Result<(), RunError>) -> Result<(), RunError>
    ensures { OnOk result (IsOk written) }
{
    written?;
    close_output(rt)
}

// Prints a text, piece by piece, that is all of standard output.
pub fn print(rt: HostRuntime, pieces: &[&[u8]]) -> Result<(), RunError> {
    for piece in pieces {
        write_whole(rt, piece)?;
    }
    end_output(rt, Ok(()))
}

// The text of an error, as far as there is room for it. It is kept, and not written as it is displayed: std puts the error's number behind it.
#[derive(Clone, Copy)]
struct Reason {
    bytes: [u8; 320],
    length: usize,
}

impl fmt::Write for Reason {
    fn write_str(&mut self, text: &str) -> fmt::Result {
        for byte in text.as_bytes() {
            if self.length < self.bytes.len() {
                self.bytes[self.length] = *byte;
                self.length += 1;
            }
        }
        Ok(())
    }
}

// Where the system's text ends: std has its number behind it, in parentheses after a space.
fn text_length(text: &[u8]) -> usize
    ensures { result ≤ length text.now }
{
    match text.iter().rposition(|byte| *byte == b'(') {
        Some(at) => at.saturating_sub(1),
        None => text.len(),
    }
}

// Pieces of a message, one after the other. What standard error does not take is lost.
pub fn say(rt: HostRuntime, pieces: &[&[u8]]) {
    for piece in pieces {
        let _ = write_to(&mut rt.stderr(), piece);
    }
}

// A message on what failed: the system's text.
pub fn fail(rt: HostRuntime, name: &[u8], what: &[u8], error: io::Error) {
    let mut reason = Reason {
        bytes: [0; 320],
        length: 0,
    };
    let _ = fmt::Write::write(&mut reason, error);
    let whole = reason.bytes.get(..reason.length).unwrap_or(b"");
    let length = match error.raw_os_error() {
        Some(_) => text_length(whole),
        None => whole.len(),
    };
    say(rt, &[name, b": ", what, b": "]);
    say(rt, &[&whole[..length], b"\n"]);
}

// A write to standard output failed. A pipe is closed by its reader, who wants no message.
pub fn fail_output(rt: HostRuntime, name: &[u8], error: io::Error) {
    if error.kind() != ErrorKind::BrokenPipe {
        fail(rt, name, b"standard output", error);
    }
}

// Whose messages stand on standard error, and what they are about: the program's name, and the input's.
#[derive(Clone, Copy)]
pub struct Speaker<'a> {
    pub rt: HostRuntime,
    pub name: &'a [u8],
    pub source: &'a [u8],
}

impl Speaker<'_> {
    // A message on what was refused of the input.
    pub fn tell(self, sentence: &[u8]) {
        say(self.rt, &[self.name, b": ", self.source, b": ", sentence]);
    }

    // A message on what ended a run, if it has one.
    pub fn tell_error(self, error: RunError) {
        match error {
            RunError::Input(error) => fail(self.rt, self.name, self.source, error),
            RunError::Output(error) => fail_output(self.rt, self.name, error),
            RunError::Turns => {}
        }
    }
}
