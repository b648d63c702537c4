// Where the reading of a line stops.
ghost use Rattle.lines.specs.Words.{words_in};
ghost use Rattle.faults.specs.Stop.{stop_of, Stops};

use crate::expected::{Expected, fits, next};
use lines::fields::field;
use lines::words::next_word;

// What was expected there, how many words were as expected before it, and the word found, unless the line ended.
#[derive(Clone, Copy)]
pub(crate) struct Stopped<'a> {
    pub(crate) expected: Expected,
    pub(crate) words: usize,
    pub(crate) found: Option<&'a [u8]>,
}

// The first word that is not as expected, in a line without its comment, given whether lines name a field.
pub(crate) fn stop_in(line: &[u8], first: Expected, named: bool) -> Stopped<'_>
    ensures { Stops (stop_of named first 0 (words_in line.now)) result }
{
    let mut expected = first;
    let mut words = 0;
    let mut rest = line;
    while let Some(word) = next_word(rest) {
        let field = field(word.bytes);
        if !fits(expected, field) {
            return Stopped {
                expected,
                words,
                found: Some(word.bytes),
            };
        }
        expected = next(expected, field, named);
        words += 1;
        rest = word.rest;
    }
    Stopped {
        expected,
        words,
        found: None,
    }
}
