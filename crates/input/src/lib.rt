// A program's input: the file that its argument names, or standard input. A failure to read is reported on standard error in the system's
// own words, and is never taken for an empty file.
#![tactic(auto)]

ghost use Rattle.std.specs.Prelude.{List, ℕ, ◌≡◌, ◌<◌, ◌≤◌, IfOk, IfSome, length, take};
ghost use Rattle.std.specs.Fn.{FnOnceReturnsAt};
ghost use Rattle.std.specs.Io.{ReadsAtMost};
ghost use Rattle.std.specs.Io.KnownBytes.{Consumes, IsAtEnd};
ghost use Rattle.lines.specs.Field.{numeral_of};
ghost use Rattle.lines.specs.Fields.{field_of};
ghost use Rattle.input.specs.Counts.{FitsIn, IsPrefixLen};
ghost use Rattle.input.specs.Option.{is_option};

use lines::fields::field;
use std::env::FillError;
use std::fmt::InlineText;
use std::fs::File;
use std::io;
use std::io::{IsTerminal, Read};
use std::rt::Env;

// The longest argument that is taken, in bytes.
pub const LONGEST_WORD: usize = 4096;

// How a program is called and what it says of itself: its name; what it takes before the file, with a blank before each option; what its
// input is; and what it does with it.
#[derive(Clone, Copy)]
pub struct Program<'a> {
    pub name: &'a [u8],
    pub options: &'a [u8],
    pub expected: &'a [u8],
    pub help: &'a [u8],
}

impl Program<'_> {
    // Writes how the program is called. std says nothing of what a write leaves, so there is nothing to promise.
    pub fn put_usage(self, to: &impl Print) {
        let parts = [
            b"usage: ".as_slice(),
            self.name,
            self.options,
            b" [FILE | --help]\n",
        ];
        for part in parts {
            let _ = to.write_all(part);
        }
    }
}

// The input and the task that the option --task chose, if it was given.
#[derive(Clone, Copy)]
pub struct Chosen<'b> {
    pub bytes: &'b [u8],
    pub task: Option<usize>,
}

// The system's errors for an argument that is missing or too long, and for a name that is no text.
#[derive(Clone, Copy)]
enum Errno {
    InvalidArgument = 22,
    NameTooLong = 36,
    NotText = 84,
}

impl From<FillError> for Errno {
    fn from(error: FillError) -> Errno {
        match error {
            FillError::NotPresent => Errno::InvalidArgument,
            FillError::TooLong => Errno::NameTooLong,
        }
    }
}

impl From<Errno> for io::Error {
    fn from(error: Errno) -> io::Error {
        io::Error::from_raw_os_error(error as i32)
    }
}

// Writes to standard error. If that fails there is no place left to say so; std says nothing of what a write leaves, so there is nothing to
// promise.
pub fn complain(rt: HostRuntime, text: &[u8]) {
    let _ = rt.stderr().write_all(text);
}

// The words of an error's message, without its number, which std puts after them in parentheses.
fn words_of(message: &str) -> &str {
    message
        .rsplit_once(" (")
        .map_or(message, |(words, _)| words)
}

// Writes the system's own words for an error.
fn put_reason(rt: HostRuntime, error: io::Error) {
    let code = error
        .raw_os_error()
        .unwrap_or(Errno::InvalidArgument as i32);
    let message = InlineText::<96>::of(io::Error::from_raw_os_error(code));
    complain(rt, words_of(message.as_str()).as_bytes());
}

// Reports why a system call failed, after the program's name and what it failed on.
fn fail(rt: HostRuntime, name: &[u8], what: &[u8], error: io::Error) {
    for part in [name, b": ", what, b": "] {
        complain(rt, part);
    }
    put_reason(rt, error);
    complain(rt, b"\n");
}

// Reads until the buffer is full or the input ends.
// Kept: of std's own, `read_exact` fails at the end of a shorter input, and `read_to_end` fills a Vec.
fn fill<R: Read>(source: &mut R, buffer: &mut [u8]) -> io::Result<usize>
    ensures count { ReadsAtMost result buffer.new }
    ensures bytes { IfOk result (λ n. Consumes (R.remaining source.old) (R.remaining source.new) (take n buffer.new)) }
    ensures end { IfOk result (λ n. n < length buffer.new → IsAtEnd (R.remaining source.new)) }
{
    let mut done = 0;
    while done < buffer.len() {
        let rest = &mut buffer[done..];
        let more = source.read(rest)?;
        if more == 0 {
            break;
        }
        done += more;
    }
    Ok(done)
}

// The same, but a read that fails is reported.
fn read_all<'b, R: Read>(
    rt: HostRuntime,
    source: &mut R,
    name: &[u8],
    what: &[u8],
    buffer: &'b mut [u8],
) -> Option<&'b [u8]>
    ensures fits { FitsIn result buffer.old }
    ensures bytes { IfSome result (λ read. Consumes (R.remaining source.old) (R.remaining source.new) read.now) }
{
    match fill(source, buffer) {
        Ok(count) => Some(&buffer[..count]),
        Err(error) => {
            fail(rt, name, what, error);
            None
        }
    }
}

// Opens a file. std takes no name that is not UTF-8 text.
fn open(rt: HostRuntime, path: &[u8]) -> io::Result<File> {
    let path = str::from_utf8(path).map_err(|_| Errno::NotText)?;
    File::open(&rt, path)
}

// Reads a file. `name` is the program's.
pub fn from_file<'b>(
    rt: HostRuntime,
    name: &[u8],
    path: &[u8],
    buffer: &'b mut [u8],
) -> Option<&'b [u8]>
    ensures { FitsIn result buffer.old }
{
    match open(rt, path) {
        Ok(mut file) => read_all(rt, &mut file, name, path, buffer),
        Err(error) => {
            fail(rt, name, path, error);
            None
        }
    }
}

// Reads standard input. On a terminal it says what is expected.
fn from_standard<'b>(rt: HostRuntime, program: Program, buffer: &'b mut [u8]) -> Option<&'b [u8]>
    ensures { FitsIn result buffer.old }
{
    let name = program.name;
    if rt.stdin().is_terminal() {
        let parts = [
            name,
            b": reading ",
            program.expected,
            b" from the terminal; name a file, or see ",
            name,
            b" --help\n",
        ];
        for part in parts {
            complain(rt, part);
        }
    }
    read_all(rt, &mut rt.stdin(), name, b"standard input", buffer)
}

// Says how the program is called, and reads nothing.
fn misused<T>(rt: HostRuntime, program: Program) -> Option<T>
    ensures { result ≡ None }
{
    program.put_usage(&rt.stderr());
    None
}

// Whether a word begins as an option does.
pub fn is_option(word: &[u8]) -> bool
    ensures { result ≡ is_option word.now }
{
    word.first() == Some(&b'-')
}

// How many words the program was started with, its own name among them. std says nothing of how many there are, so there is nothing to
// promise.
pub fn word_count(rt: HostRuntime) -> usize {
    (0..usize::MAX)
        .find(|at| matches!(rt.arg(*at, &mut []), Err(FillError::NotPresent)))
        .unwrap_or(usize::MAX)
}

// Puts an argument at the front of the buffer and returns its length; 0 if it is missing or longer than the buffer.
// Kept: it cannot fail, so no `Option`.
pub fn word_at(rt: HostRuntime, at: usize, word: &mut [u8]) -> usize
    ensures { IsPrefixLen result word.new }
{
    rt.arg(at, word).unwrap_or(0)
}

// What `f` makes of an argument, or of no bytes if it is missing or too long.
pub fn with_word<T, F: FnOnce(&[u8]) -> T>(rt: HostRuntime, at: usize, f: F) -> T
    requires { F.IsAlwaysCallable f }
    ensures { (word : List ℕ) × (length word ≤ LONGEST_WORD) × FnOnceReturnsAt F.FnOnce f word result }
{
    let mut word = [0u8; LONGEST_WORD];
    let length = word_at(rt, at, &mut word);
    f(&word[..length])
}

// An argument as a number, if it is one.
pub fn number_at(rt: HostRuntime, at: usize) -> Option<u32>
    ensures { (word : List ℕ) × (length word ≤ LONGEST_WORD) × (result ≡ numeral_of (field_of word)) }
{
    with_word(rt, at, |word| field(word).number())
}

// Follows a word: `-` is standard input, and any other word that begins with it is an option.
fn from_word<'b>(
    rt: HostRuntime,
    word: &[u8],
    program: Program,
    buffer: &'b mut [u8],
) -> Option<&'b [u8]>
    ensures { FitsIn result buffer.old }
{
    match word {
        b"-" => from_standard(rt, program, buffer),
        b"--help" => {
            program.put_usage(&rt.stdout());
            let _ = rt.stdout().write_all(program.help);
            None
        }
        _ if is_option(word) => misused(rt, program),
        _ => from_file(rt, program.name, word, buffer),
    }
}

// Follows the argument at an index.
pub fn from_argument<'b>(
    rt: HostRuntime,
    at: usize,
    program: Program,
    buffer: &'b mut [u8],
) -> Option<&'b [u8]>
    ensures { FitsIn result buffer.old }
{
    let mut word = [0u8; LONGEST_WORD];
    match rt.arg(at, &mut word) {
        Ok(length) => from_word(rt, &word[..length], program, buffer),
        Err(error) => {
            fail(rt, program.name, b"file name", Errno::from(error).into());
            None
        }
    }
}

// Reads what the arguments from `at` on name: at most one of them.
pub fn from_rest<'b>(
    rt: HostRuntime,
    at: usize,
    program: Program,
    buffer: &'b mut [u8],
) -> Option<&'b [u8]>
    ensures { FitsIn result buffer.old }
{
    match word_count(rt).saturating_sub(at) {
        0 => from_standard(rt, program, buffer),
        1 => from_argument(rt, at, program, buffer),
        _ => misused(rt, program),
    }
}

// Reads what the arguments of the program name. If there is nothing to work on, the reason has already been written.
pub fn from_arguments<'b>(
    rt: HostRuntime,
    program: Program,
    buffer: &'b mut [u8],
) -> Option<&'b [u8]>
    ensures { FitsIn result buffer.old }
{
    from_rest(rt, 1, program, buffer)
}

// The same for a program that takes --task TASK before the file.
pub fn with_task<'b>(rt: HostRuntime, program: Program, buffer: &'b mut [u8]) -> Option<Chosen<'b>>
    ensures bytes { IfSome result (λ chosen. length chosen.bytes.now ≤ length buffer.old) }
    ensures task { IfSome result (λ chosen. IfSome chosen.task (λ task. task < 4294967296)) }
{
    if !with_word(rt, 1, |word| word == b"--task".as_slice()) {
        let bytes = from_rest(rt, 1, program, buffer)?;
        return Some(Chosen { bytes, task: None });
    }
    let Some(task) = number_at(rt, 2) else {
        return misused(rt, program);
    };
    let bytes = from_rest(rt, 3, program, buffer)?;
    let task = Some(task as usize);
    Some(Chosen { bytes, task })
}
