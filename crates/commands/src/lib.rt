// The programs `station`, `reading`, `model`, `accept`, `compose` and `reply` by their words.
#![tactic(auto)]

ghost use Rattle.std.specs.Prelude.{◌≡◌, true};
ghost use Rattle.statuses.specs.Status.{IsStatus, number_of, told, wrong_words};
ghost use Rattle.tasks.specs.Tasks.{task_fits};

use posix::{Input, RunError, Speaker};
use program::PrintOptions;
use statuses::Status;
use std::env::FillError;
use std::fs::File;
use std::rt::Env;
use std::{fs, io, str};
use tasks::Task;

// A program: its name, and the words that it takes, a space ahead of each; what it reads, what it prints, and the exit status of an input that was read.
#[derive(Clone, Copy)]
struct Program {
    name: &'static [u8],
    words: &'static [u8],
    takes: &'static [u8],
    prints: &'static [u8],
    told: &'static [u8],
}

const STATION: Program = Program {
    name: b"station",
    words: b" [FILE]",
    takes: b"Hexadecimal lines",
    prints: b"a line per record and one per frame",
    told: b"0 the whole input, 1 a line was refused",
};

const READING: Program = Program {
    name: b"reading",
    words: b" [FILE]",
    takes: b"Hexadecimal lines",
    prints: b"a line per record",
    told: b"0 the whole input, 1 a line was refused",
};

const MODEL: Program = Program {
    name: b"model",
    words: b" [FILE]",
    takes: b"Hexadecimal lines",
    prints: b"a line per record, then the state,",
    told: b"0 the whole input, 1 a line was refused",
};

const ACCEPT: Program = Program {
    name: b"accept",
    words: b" [FILE]",
    takes: b"Hexadecimal lines",
    prints: b"a line for the first pattern at fault, if there is one,",
    told: b"0 accepted, 1 refused",
};

const COMPOSE: Program = Program {
    name: b"compose",
    words: b" [FILE]",
    takes: b"Orders, one a line,",
    prints: b"hexadecimal lines of their stream",
    told: b"0 the whole input, 1 a line was refused",
};

const REPLY: Program = Program {
    name: b"reply",
    words: b" COUNT [FILE]",
    takes: b"Hexadecimal lines",
    prints: b"whether a reply of COUNT bits, 1 to 8191, is whole, and a line of its bytes,",
    told: b"0 whole, 1 not whole or a line was refused",
};

// The system's numbers of its errors: a name that is too long, one that is no text.
const NAME_TOO_LONG: i32 = 36;

const NO_TEXT: i32 = 84;

// The longest name of a file, without the 0 that C ends it with.
const LONGEST_WORD: usize = 4095;

// The status of what has ended. Where the system ended a run, that is told here.
fn ended(speaker: Speaker<'_>, run: Result<Status, RunError>) -> Status
    ensures { number_of result ≡ told run }
{
    match run {
        Ok(status) => status,
        Err(error) => {
            speaker.tell_error(error);
            Status::Failed
        }
    }
}

// A run over an input that is open.
fn run_input(speaker: Speaker<'_>, from: &mut Input, task: Task) -> Status
    requires { task_fits task ≡ true }
{
    let list = |from: &mut Input, frames: bool, state: bool| {
        runs::list_input(speaker, from, PrintOptions { frames, state })
    };
    let run = match task {
        Task::Station => list(from, true, false),
        Task::Reading => list(from, false, false),
        Task::Model => list(from, false, true),
        Task::Accept => judge_runs::judge_input(speaker, from),
        Task::Compose => compose_runs::compose_input(speaker, from),
        Task::Reply { bits } => reply_runs::reply_input(speaker, from, bits),
    };
    ended(speaker, run)
}

// A file by its name, open for reading. The library opens a file by text, so that none is open whose name is no UTF-8.
fn open_file(rt: HostRuntime, word: &[u8]) -> io::Result<File> {
    match str::from_utf8(word) {
        Ok(path) => fs::open(&rt, path),
        Err(_) => Err(io::Error::from_raw_os_error(NO_TEXT)),
    }
}

// Whether the program has a word at this place. Its own name is at 0.
fn has_word(rt: HostRuntime, place: usize) -> bool {
    let mut given = [0u8; 1];
    !matches!(rt.arg(place, &mut given), Err(FillError::NotPresent))
}

// Whether the program has one word, and it is this one.
fn is_only_word(rt: HostRuntime, word: &[u8]) -> bool {
    if !has_word(rt, 1) || has_word(rt, 2) {
        return false;
    }
    // A longer word is none that is looked for.
    let mut given = [0u8; 16];
    match rt.arg(1, &mut given) {
        Ok(n) => &given[..n] == word,
        Err(_) => false,
    }
}

impl Program {
    fn usage(self, rt: HostRuntime) -> Status
        ensures { number_of result ≡ wrong_words }
    {
        posix::say(rt, &[b"usage: ", self.name, self.words, b"\n"]);
        Status::WrongWords
    }

    fn help(self, rt: HostRuntime) -> Result<(), RunError> {
        posix::print(
            rt,
            &[
                b"usage: ",
                self.name,
                self.words,
                b"\n",
                self.takes,
                b" from FILE, or from standard input if there is none or it is -; ",
                self.prints,
                b" to standard output.\n",
                b"Exit status: ",
                self.told,
                b", 2 wrong words, 3 the system failed.\n",
            ],
        )
    }

    fn speaker(self, rt: HostRuntime, source: &[u8]) -> Speaker<'_> {
        Speaker {
            rt,
            name: self.name,
            source,
        }
    }

    // Help, or the version, if the only word asks for it.
    fn inform(self, rt: HostRuntime) -> Option<Status> {
        let printed = if is_only_word(rt, b"--version") {
            posix::print(rt, &[self.name, b" (Kernelstill) 1.11.0\n"])
        } else if is_only_word(rt, b"--help") {
            self.help(rt)
        } else {
            return None;
        };
        let speaker = self.speaker(rt, b"standard output");
        Some(ended(speaker, printed.map(|_| Status::Whole)))
    }

    // A run over standard input.
    fn run_standard(self, rt: HostRuntime, task: Task) -> Status
        requires { task_fits task ≡ true }
    {
        let mut from = Input::Standard(rt.stdin());
        run_input(self.speaker(rt, b"standard input"), &mut from, task)
    }

    // A run over the input that a word names.
    fn run_file(self, rt: HostRuntime, word: &[u8], task: Task) -> Status
        requires { task_fits task ≡ true }
    {
        if word == b"-".as_slice() {
            return self.run_standard(rt, task);
        }
        if word.starts_with(b"-") {
            return self.usage(rt);
        }
        match open_file(rt, word) {
            Ok(file) => {
                let mut from = Input::Named(file);
                run_input(self.speaker(rt, word), &mut from, task)
            }
            Err(error) => {
                posix::fail(rt, self.name, word, error);
                Status::Failed
            }
        }
    }

    // A run over the input that the last word names, or over standard input.
    fn run_last(self, rt: HostRuntime, task: Task) -> Status
        requires { task_fits task ≡ true }
    {
        let place = tasks::input_place(task);
        if !has_word(rt, place) {
            return self.run_standard(rt, task);
        }
        if has_word(rt, place + 1) {
            return self.usage(rt);
        }
        let mut word = [0u8; LONGEST_WORD];
        match rt.arg(place, &mut word) {
            Ok(n) => self.run_file(rt, &word[..n], task),
            Err(_) => {
                let error = io::Error::from_raw_os_error(NAME_TOO_LONG);
                posix::fail(rt, self.name, b"argument", error);
                Status::Failed
            }
        }
    }

    // As the words ask.
    fn run(self, rt: HostRuntime, task: Task) -> Status
        requires { task_fits task ≡ true }
    {
        match self.inform(rt) {
            Some(status) => status,
            None => self.run_last(rt, task),
        }
    }
}

// The six functions below answer a number, as they are documented to: that of a status, which a program's `main` hands on.

// `station`: one line per record and one per frame.
pub fn kernelstill_run_station(rt: HostRuntime) -> u8
    ensures { IsStatus result }
{
    STATION.run(rt, Task::Station).number()
}

// `reading`: one line per record.
pub fn kernelstill_run_reading(rt: HostRuntime) -> u8
    ensures { IsStatus result }
{
    READING.run(rt, Task::Reading).number()
}

// `model`: one line per record, and at the end the controller as the commands left it.
pub fn kernelstill_run_model(rt: HostRuntime) -> u8
    ensures { IsStatus result }
{
    MODEL.run(rt, Task::Model).number()
}

// `accept`: a line for the first pattern at fault, if there is one.
pub fn kernelstill_run_accept(rt: HostRuntime) -> u8
    ensures { IsStatus result }
{
    ACCEPT.run(rt, Task::Accept).number()
}

// `compose`: the stream that orders make.
pub fn kernelstill_run_compose(rt: HostRuntime) -> u8
    ensures { IsStatus result }
{
    COMPOSE.run(rt, Task::Compose).number()
}

// Of a reply of as many data bits as the word COUNT says.
#[tactic(auto, using(reply_words::proofs::Words::fit_bits))]
fn run_reply(rt: HostRuntime) -> Status {
    // A longer word is no count.
    let mut word = [0u8; 16];
    let asked = match rt.arg(1, &mut word) {
        Ok(n) => reply_words::data_bits(&word[..n]),
        Err(_) => None,
    };
    let Some(bits) = asked else {
        return REPLY.usage(rt);
    };
    REPLY.run_last(rt, Task::Reply { bits })
}

// `reply`: whether a reply of so many data bits is whole, and its bytes.
pub fn kernelstill_run_reply(rt: HostRuntime) -> u8
    ensures { IsStatus result }
{
    REPLY.inform(rt).unwrap_or_else(|| run_reply(rt)).number()
}
