// The text that the program `record` reads: its lines, and what each of them asks for.

#![tactic(auto)]

ghost use Rattle.std.specs.Prelude.{◌≡◌, ◌+◌, ◌≤◌, length, drop};
ghost use Rattle.lines.specs.Lines.{is_passed, NextLine};

use crate::before::before;
use crate::words::{bare, next_word};

pub mod asked;
mod before;
pub mod field;
pub mod fields;
pub mod rows;
pub mod words;

// Lines without a word are skipped.
fn is_passed(line: &[u8]) -> bool
    ensures { result ≡ is_passed line.now }
{
    next_word(bare(line)).is_none()
}

// What follows a text's first line, given the line's length. Its newline may be missing.
fn behind(text: &[u8], size: usize) -> &[u8]
    requires { size ≤ length text.now }
    ensures { result.now ≡ drop (size + 1) text.now }
{
    &text[text.len().min(size + 1)..]
}

// A line that is not skipped, its number, and the text that follows it.
#[derive(Clone, Copy)]
pub struct Next<'a> {
    pub number: usize,
    pub line: &'a [u8],
    pub rest: &'a [u8],
}

// The next line of a text whose first line has this number; or the number of the line after the last.
pub fn next_line(text: &[u8], first: usize) -> Result<Next<'_>, usize>
    requires { first + length text.now ≤ usize.MAX }
    ensures { NextLine text.now first result }
{
    let mut left = text;
    let mut number = first;
    while !left.is_empty() {
        let line = before(left, b'\n');
        let rest = behind(left, line.len());
        if !is_passed(line) {
            return Ok(Next { number, line, rest });
        }
        left = rest;
        number += 1;
    }
    Err(number)
}
