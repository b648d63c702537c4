// The first three lines of a text: T and N, or T, N and F; the owners; the starting values.
ghost use Rattle.std.specs.Prelude.{true, map, ◌≡◌, ◌≤◌, length};
ghost use Rattle.std.proofs.lemmas.List.Edits.{sets};
ghost use Rattle.codec.specs.Limit.{max_objects};
ghost use Rattle.lines.specs.Field.{value_of};
ghost use Rattle.lines.specs.Fields.{fields_of};
ghost use Rattle.lines.specs.Rows.{is_row, leading, numbers_of, sizes_of, owner_of, owners_of};

use crate::fields::field;
use crate::words::{bare, next_word};
use codec::limit::OBJECTS;

// T and N as a line gives them, and F if the line has it.
#[derive(Clone, Copy)]
pub struct Sizes {
    pub tasks: usize,
    pub objects: usize,
    pub fields: Option<usize>,
}

// A line of as many numbers as the row has places. Returns whether it is one. The numbers in front of the first word that is none
// are put into the row, as far as there is room for them.
pub fn read_row(line: &[u8], row: &mut [u32]) -> bool
    ensures value { result ≡ is_row (length row.old) (fields_of line.now) }
    ensures row_after { result ≡ true → row.new ≡ map value_of (fields_of line.now) }
    ensures row_stored { row.new ≡ sets row.old 0 (leading (fields_of line.now)) }
{
    let mut rest = bare(line);
    for place in row.iter_mut() {
        let Some(word) = next_word(rest) else {
            return false;
        };
        let Some(number) = field(word.bytes).number() else {
            return false;
        };
        *place = number;
        rest = word.rest;
    }
    next_word(rest).is_none()
}

// A line of N numbers.
pub fn numbers<const N: usize>(line: &[u8]) -> Option<[u32; N]>
    ensures { result ≡ numbers_of N (fields_of line.now) }
{
    let mut row = [0u32; N];
    if !read_row(line, &mut row) {
        return None;
    }
    Some(row)
}

// T and N, or T, N and F.
pub fn sizes_of(line: &[u8]) -> Option<Sizes>
    ensures { result ≡ sizes_of (fields_of line.now) }
{
    if let Some(row) = numbers::<2>(line) {
        let [tasks, objects] = row;
        return Some(Sizes {
            tasks: tasks as usize,
            objects: objects as usize,
            fields: None,
        });
    }
    let [tasks, objects, fields] = numbers::<3>(line)?;
    Some(Sizes {
        tasks: tasks as usize,
        objects: objects as usize,
        fields: Some(fields as usize),
    })
}

// An owner above 255 becomes 255, which is below no T.
fn owner(number: u32) -> u8
    ensures { result ≡ owner_of number }
{
    number.min(255) as u8
}

// Stores the owners, one byte each.
fn set_owners(row: &[u32], owners: &mut [u8])
    requires { length owners.old ≡ length row.now }
    ensures { owners.new ≡ map owner_of row.now }
{
    for (i, number) in row.iter().enumerate() {
        owners[i] = owner(*number);
    }
}

// The owners' line. Returns whether it holds one number for each owner.
pub fn read_owners(line: &[u8], owners: &mut [u8]) -> bool
    requires { length owners.old ≤ max_objects }
    ensures value { result ≡ is_row (length owners.old) (fields_of line.now) }
    ensures owners_after { result ≡ true → owners.new ≡ owners_of (fields_of line.now) }
{
    let n = owners.len();
    let mut space = [0u32; OBJECTS];
    let row = &mut space[..n];
    if !read_row(line, row) {
        return false;
    }
    set_owners(row, owners);
    true
}
