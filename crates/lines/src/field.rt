// A word of a line as a field.
ghost use Rattle.std.specs.Prelude.{◌≡◌};
ghost use Rattle.lines.specs.Field.{numeral_of, is_read, is_write};

// A number, R or W, or another word.
#[derive(Clone, Copy, PartialEq, Eq, Debug)]
pub enum Field {
    Other,
    Number(u32),
    Read,
    Write,
}

impl Field {
    // The number, if the word is one.
    pub fn number(self) -> Option<u32>
        ensures { result ≡ numeral_of self }
    {
        match self {
            Field::Number(value) => Some(value),
            _ => None,
        }
    }

    pub(crate) fn is_read(self) -> bool
        ensures { result ≡ is_read self }
    {
        matches!(self, Field::Read)
    }

    pub(crate) fn is_write(self) -> bool
        ensures { result ≡ is_write self }
    {
        matches!(self, Field::Write)
    }
}
