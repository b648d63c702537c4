// The fields of a line: each word as a number, R or W.
ghost use Rattle.std.specs.Prelude.{map, ◌≡◌, ◌≤◌, length, set};
ghost use Rattle.std.proofs.lemmas.List.Edits.{sets};
ghost use Rattle.lines.specs.Number.{digit_on, number_of};
ghost use Rattle.lines.specs.Fields.{field_of, fields_of};
ghost use Rattle.lines.specs.Words.{words_in};

use crate::field::Field;
use crate::words::{bare, next_word};

// A number with one more digit, unless the byte is none or the number gets too large.
fn digit_on(value: u32, byte: u8) -> Option<u32>
    ensures { result ≡ digit_on value byte }
{
    if !byte.is_ascii_digit() {
        return None;
    }
    value.checked_mul(10)?.checked_add(u32::from(byte - b'0'))
}

// A word as a number.
// Kept: `str::parse` takes a + before the digits, which is no number here.
fn number(word: &[u8]) -> Option<u32>
    ensures { result ≡ number_of word.now }
{
    if word.is_empty() {
        return None;
    }
    let mut value = 0;
    for byte in word {
        value = digit_on(value, *byte)?;
    }
    Some(value)
}

// A word: a number, R or W.
pub fn field(word: &[u8]) -> Field
    ensures { result ≡ field_of word.now }
{
    if word == b"R".as_slice() {
        return Field::Read;
    }
    if word == b"W".as_slice() {
        return Field::Write;
    }
    number(word).map_or(Field::Other, Field::Number)
}

// Puts a field at an index, if there is room.
fn put_field(out: &mut [Field], at: usize, value: Field)
    ensures { out.new ≡ set out.old at value }
{
    if at < out.len() {
        out[at] = value;
    }
}

// The fields of a line without its comment.
fn fields_in(line: &[u8], out: &mut [Field]) -> usize
    ensures value { result ≡ length (map field_of (words_in line.now)) }
    ensures out_after { out.new ≡ sets out.old 0 (map field_of (words_in line.now)) }
{
    let mut count = 0;
    let mut rest = line;
    while let Some(word) = next_word(rest) {
        put_field(out, count, field(word.bytes));
        count += 1;
        rest = word.rest;
    }
    count
}

// The fields of a line, as far as there is room for them. Returns how many the line has.
pub fn fields(line: &[u8], out: &mut [Field]) -> usize
    ensures value { result ≡ length (fields_of line.now) }
    ensures out_after { out.new ≡ sets out.old 0 (fields_of line.now) }
{
    fields_in(bare(line), out)
}
