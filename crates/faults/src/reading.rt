// What a line of the text is read as.
ghost use Rattle.std.specs.Prelude.{◌≡◌, ◌≤◌, length};
ghost use Rattle.faults.specs.Reading.{reading_of, Stands, text_sizes};

use crate::kind::{Kind, kind_after};
use lines::next_line;
use lines::rows::{Sizes, sizes_of};

// What the line is, and its bytes if the text has it.
#[derive(Clone, Copy)]
pub(crate) struct Place<'a> {
    pub(crate) kind: Kind,
    pub(crate) line: Option<&'a [u8]>,
}

// The line with a given number.
pub(crate) fn place_of(text: &[u8], line: usize) -> Place<'_>
    requires { length text.now ≤ 1048576 }
    ensures { Stands (reading_of text.now line) result }
{
    let mut kind = Kind::Sizes;
    let mut rest = text;
    let mut number = 1;
    while let Ok(next) = next_line(rest, number) {
        if next.number == line {
            return Place {
                kind,
                line: Some(next.line),
            };
        }
        kind = kind_after(kind);
        rest = next.rest;
        number = next.number + 1;
    }
    Place { kind, line: None }
}

// The sizes of a text whose first line gives none.
const NO_SIZES: Sizes = Sizes {
    tasks: 0,
    objects: 0,
    fields: None,
};

// T, N and F as the first line gives them.
pub(crate) fn text_sizes(text: &[u8]) -> Sizes
    requires { length text.now ≤ 1048576 }
    ensures { result ≡ text_sizes text.now }
{
    match next_line(text, 1) {
        Ok(next) => sizes_of(next.line).unwrap_or(NO_SIZES),
        Err(_) => NO_SIZES,
    }
}
