// The access that a line of the text asks for.
ghost use Rattle.std.specs.Prelude.{◌≡◌};
ghost use Rattle.lines.specs.Asked.{read_by, write_by, plain_of, fielded_of, asked_of};
ghost use Rattle.lines.specs.Fields.{fields_of};

use crate::field::Field;
use crate::fields::fields;

// An access as a line asks for it. The field is 0 if lines name none; a read has no value.
#[derive(Clone, Copy)]
pub struct Asked {
    pub task: usize,
    pub object: usize,
    pub field: usize,
    pub value: Option<u32>,
}

// A read, given whether its letter is right; the numbers must be numbers.
fn read(right: bool, task: Field, object: Field, field: Field) -> Option<Asked>
    ensures { result ≡ read_by right task object field }
{
    if !right {
        return None;
    }
    Some(Asked {
        task: task.number()? as usize,
        object: object.number()? as usize,
        field: field.number()? as usize,
        value: None,
    })
}

// A write, likewise.
fn write(right: bool, task: Field, object: Field, field: Field, value: Field) -> Option<Asked>
    ensures { result ≡ write_by right task object field value }
{
    let place = read(right, task, object, field)?;
    Some(Asked {
        value: Some(value.number()?),
        ..place
    })
}

// No field is named: `task R object` or `task W object value`.
fn plain(line: &[u8]) -> Option<Asked>
    ensures { result ≡ plain_of (fields_of line.now) }
{
    let mut row = [Field::Other; 4];
    match fields(line, &mut row) {
        3 => read(row[1].is_read(), row[0], row[2], Field::Number(0)),
        4 => write(row[1].is_write(), row[0], row[2], Field::Number(0), row[3]),
        _ => None,
    }
}

// A field is named: `task R object field` or `task W object field value`.
fn fielded(line: &[u8]) -> Option<Asked>
    ensures { result ≡ fielded_of (fields_of line.now) }
{
    let mut row = [Field::Other; 5];
    match fields(line, &mut row) {
        4 => read(row[1].is_read(), row[0], row[2], row[3]),
        5 => write(row[1].is_write(), row[0], row[2], row[3], row[4]),
        _ => None,
    }
}

// The access that a line asks for, given whether lines name a field; none if the line is malformed.
pub fn asked_of(line: &[u8], named: bool) -> Option<Asked>
    ensures { result ≡ asked_of named (fields_of line.now) }
{
    if named { fielded(line) } else { plain(line) }
}
