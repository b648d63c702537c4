// The message about a fault, after `line 7: expected `.
ghost use Rattle.std.specs.Prelude.{◌++◌, ◌+◌, ◌≤◌, ◌<◌, length};
ghost use Rattle.lines.specs.Number.{number_limit};
ghost use Rattle.lines.specs.Rows.{fields_in};
ghost use Rattle.text.specs.Appended.{Appended};
ghost use Rattle.faults.specs.Name.{name_of};
ghost use Rattle.faults.specs.FaultText.{found_line_end, wrong_text, plural_of, noun_text, count_text, end_text, line_text, missing_text, fault_text};

use crate::expected::Expected;
use crate::kind::{Kind, count_of, first};
use crate::name::{missing_name, name_of};
use crate::reading::{place_of, text_sizes};
use crate::shown::put_shown;
use crate::stop::stop_in;
use lines::rows::Sizes;
use lines::words::bare;
use text::{put_byte, put_bytes, put_field, put_number};

// This word was found where another was expected.
fn put_wrong(out: &mut [u8], at: usize, e: Expected, word: &[u8]) -> usize
    requires { at + 75 ≤ length out.old }
    ensures appended { Appended (wrong_text e word.now) out.old at out.new result }
    ensures upper_bound { result ≤ at + 75 }
{
    let name = put_bytes(out, at, name_of(e));
    let found = put_bytes(out, name, b", found ");
    let shown = put_shown(out, found, word);
    put_byte(out, shown, b'\n')
}

// `s`, unless there is one.
fn put_plural(out: &mut [u8], at: usize, n: usize) -> usize
    requires { at + 1 ≤ length out.old }
    ensures appended { Appended (plural_of n) out.old at out.new result }
    ensures upper_bound { result ≤ at + 1 }
{
    if n == 1 {
        return at;
    }
    put_byte(out, at, b's')
}

// A number with what it counts.
fn put_noun(out: &mut [u8], at: usize, n: usize, word: &[u8]) -> usize
    requires { at + 21 + length word.now ≤ length out.old }
    ensures appended { Appended (noun_text n word.now) out.old at out.new result }
    ensures upper_bound { result ≤ at + 21 + length word.now }
{
    let number = put_number(out, at, n as u64);
    let noun = put_bytes(out, number, word);
    put_plural(out, noun, n)
}

// One number was expected and another found.
fn put_count(out: &mut [u8], at: usize, n: usize, word: &[u8], k: usize) -> usize
    requires { at + 50 + length word.now ≤ length out.old }
    ensures appended { Appended (count_text n word.now k) out.old at out.new result }
    ensures upper_bound { result ≤ at + 50 + length word.now }
{
    let noun = put_noun(out, at, n, word);
    let found = put_bytes(out, noun, b", found ");
    put_field(out, found, k as u64, b'\n')
}

fn put_line_end(out: &mut [u8], at: usize, e: Expected) -> usize
    requires { at + 71 ≤ length out.old }
    ensures appended { Appended (name_of e ++ found_line_end) out.old at out.new result }
    ensures upper_bound { result ≤ at + 71 }
{
    let name = put_bytes(out, at, name_of(e));
    put_bytes(out, name, b", found the end of the line\n")
}

// The line ended after a number of words that were as expected.
fn put_end(out: &mut [u8], at: usize, kind: Kind, n: usize, e: Expected, k: usize) -> usize
    requires { at + 71 ≤ length out.old }
    ensures appended { Appended (end_text kind n e k) out.old at out.new result }
    ensures upper_bound { result ≤ at + 71 }
{
    match kind {
        Kind::Sizes | Kind::Access => put_line_end(out, at, e),
        Kind::Owners => put_count(out, at, n, b" owner", k),
        Kind::Starts => put_count(out, at, n, b" starting value", k),
    }
}

// What is wrong with a line of a text that begins with T, N and F.
fn put_line(out: &mut [u8], at: usize, kind: Kind, z: Sizes, line: &[u8]) -> usize
    requires at_in_bounds { at + 75 ≤ length out.old }
    requires objects_lt_limit { (z.objects < number_limit) × (fields_in z < number_limit) }
    ensures appended { Appended (line_text z kind line.now) out.old at out.new result }
    ensures upper_bound { result ≤ at + 75 }
{
    let s = stop_in(bare(line), first(kind), z.fields.is_some());
    let e = s.expected;
    match s.found {
        Some(word) => put_wrong(out, at, e, word),
        None => put_end(out, at, kind, count_of(kind, z), e, s.words),
    }
}

// The text ended where such a line was expected.
fn put_missing(out: &mut [u8], at: usize, kind: Kind) -> usize
    requires { at + 71 ≤ length out.old }
    ensures appended { Appended (missing_text kind) out.old at out.new result }
    ensures upper_bound { result ≤ at + 71 }
{
    let name = put_bytes(out, at, missing_name(kind));
    put_bytes(out, name, b", found the end of the text\n")
}

// What is wrong with the line that has this number.
pub fn put_fault(out: &mut [u8], at: usize, text: &[u8], line: usize) -> usize
    requires { (at + 75 ≤ length out.old) × (length text.now ≤ 1048576) }
    ensures appended { Appended (fault_text text.now line) out.old at out.new result }
    ensures upper_bound { result ≤ at + 75 }
{
    let p = place_of(text, line);
    match p.line {
        Some(line) => put_line(out, at, p.kind, text_sizes(text), line),
        None => put_missing(out, at, p.kind),
    }
}
