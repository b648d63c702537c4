// The words of a line.
ghost use Rattle.std.specs.Prelude.{not, ◌≡◌, ◌≤◌, length};
ghost use Rattle.std.specs.List.{position};
ghost use Rattle.lines.specs.Words.{is_blank, bare_of, NextWord};
ghost use Rattle.lines.specs.Laws.WordsCode.{in_run, run_of};

use crate::before::before;

// Space, tab and carriage return.
fn is_blank(byte: u8) -> bool
    ensures { result ≡ is_blank byte }
{
    matches!(byte, b' ' | b'\t' | b'\r')
}

// Whether a byte belongs to a run of blanks, or of other bytes.
fn in_run(byte: u8, blanks: bool) -> bool
    ensures { result ≡ in_run blanks byte }
{
    is_blank(byte) == blanks
}

// Where the run of blanks, or of other bytes, that a line begins with ends, if other bytes follow it.
fn run_end(line: &[u8], blanks: bool) -> Option<usize>
    ensures { result ≡ position (λ b. not (in_run blanks b)) line.now }
{
    line.iter().position(|byte| !in_run(*byte, blanks))
}

// The length of that run.
fn run_length(line: &[u8], blanks: bool) -> usize
    ensures value { result ≡ run_of blanks line.now }
    ensures bound { result ≤ length line.now }
{
    run_end(line, blanks).unwrap_or(line.len())
}

// A word of a line, and what follows it.
#[derive(Clone, Copy)]
pub struct Word<'a> {
    pub bytes: &'a [u8],
    pub rest: &'a [u8],
}

// The next word of a line without its comment.
pub fn next_word(line: &[u8]) -> Option<Word<'_>>
    ensures { NextWord line.now result }
{
    let (_, filled) = line.split_at(run_length(line, true));
    let (bytes, rest) = filled.split_at(run_length(filled, false));
    if bytes.is_empty() {
        return None;
    }
    Some(Word { bytes, rest })
}

// A line without its comment.
pub fn bare(line: &[u8]) -> &[u8]
    ensures { result.now ≡ bare_of line.now }
{
    before(line, b'#')
}
