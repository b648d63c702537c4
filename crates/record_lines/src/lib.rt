// The line of a record, as the program `show` writes it (document 02, F-3), and the line that says how many records there are (F-5).

#![tactic(auto)]

ghost use Rattle.std.specs.Prelude.{◌+◌, ◌≤◌, length};
ghost use Rattle.text.specs.Appended.{Appended};
ghost use Rattle.record_lines.specs.RecordLines.{objects_of, head_line, section_line, ordering_line, value_of, access_line, line_at, records_line};

use codec::head::fields_of;
use codec::kind::stores_value;
use codec::{Op, Position, Record};
use replay_lines::{letter, put_object};
use text::{put_byte, put_bytes, put_field};

// Where a record is: its offset, the task of the section, and the number of the section's next access.
#[derive(Clone, Copy)]
pub struct Place {
    pub at: usize,
    pub own: usize,
    pub number: usize,
}

// N, and F if objects have fields.
fn put_objects(out: &mut [u8], end: usize, objects: u16, fields: usize) -> usize
    requires { end + length (objects_of objects fields) ≤ length out.old }
    ensures { Appended (objects_of objects fields) out.old end out.new result }
{
    if fields == 0 {
        return put_field(out, end, objects as u64, b'\n');
    }
    let a = put_field(out, end, objects as u64, b' ');
    put_field(out, a, fields as u64, b'\n')
}

fn put_head(out: &mut [u8], end: usize, at: usize, tasks: u16, objects: u16, fields: usize) -> usize
    requires { end + length (head_line at tasks objects fields) ≤ length out.old }
    ensures { Appended (head_line at tasks objects fields) out.old end out.new result }
{
    let a = put_field(out, end, at as u64, b' ');
    let b = put_bytes(out, a, b"head ");
    let c = put_field(out, b, tasks as u64, b' ');
    put_objects(out, c, objects, fields)
}

fn put_section(out: &mut [u8], end: usize, at: usize, task: u16, accesses: u16, size: u32) -> usize
    requires { end + length (section_line at task accesses size) ≤ length out.old }
    ensures { Appended (section_line at task accesses size) out.old end out.new result }
{
    let a = put_field(out, end, at as u64, b' ');
    let b = put_bytes(out, a, b"section ");
    let c = put_field(out, b, task as u64, b' ');
    let d = put_field(out, c, accesses as u64, b' ');
    put_field(out, d, size as u64, b'\n')
}

fn put_ordering(out: &mut [u8], end: usize, at: usize, own: usize, q: Position) -> usize
    requires { end + length (ordering_line at own q) ≤ length out.old }
    ensures { Appended (ordering_line at own q) out.old end out.new result }
{
    let a = put_field(out, end, at as u64, b' ');
    let b = put_bytes(out, a, b"ordering ");
    let c = put_field(out, b, own as u64, b' ');
    let d = put_bytes(out, c, b"after ");
    let e = put_field(out, d, q.task as u64, b' ');
    put_field(out, e, q.number as u64, b'\n')
}

// The value of an access, or `-`.
fn put_value(out: &mut [u8], end: usize, o: Op) -> usize
    requires { end + length (value_of o) ≤ length out.old }
    ensures { Appended (value_of o) out.old end out.new result }
{
    if stores_value(o.kind) {
        return put_field(out, end, o.value as u64, b'\n');
    }
    put_bytes(out, end, b"-\n")
}

fn put_access(out: &mut [u8], end: usize, at: usize, own: usize, number: usize, o: Op) -> usize
    requires { end + length (access_line at own number o) ≤ length out.old }
    ensures { Appended (access_line at own number o) out.old end out.new result }
{
    let a = put_field(out, end, at as u64, b' ');
    let b = put_field(out, a, own as u64, b' ');
    let c = put_field(out, b, number as u64, b' ');
    let d = put_byte(out, c, letter(o.kind));
    let e = put_byte(out, d, b' ');
    let f = put_object(out, e, o.kind, o.object as usize, o.field as usize);
    put_value(out, f, o)
}

// The line of a record.
pub fn put_line(out: &mut [u8], end: usize, p: Place, r: Record) -> usize
    requires { end + length (line_at p r) ≤ length out.old }
    ensures { Appended (line_at p r) out.old end out.new result }
{
    match r {
        Record::Head {
            kind,
            tasks,
            objects,
            width,
        } => put_head(
            out,
            end,
            p.at,
            tasks,
            objects,
            fields_of(kind, width as usize),
        ),
        Record::Section {
            task,
            accesses,
            size,
        } => put_section(out, end, p.at, task, accesses, size),
        Record::Ordering(q) => put_ordering(out, end, p.at, p.own, q),
        Record::Access(o) => put_access(out, end, p.at, p.own, p.number, o),
    }
}

// The last line: how many records the file has.
pub fn put_records(out: &mut [u8], end: usize, records: usize) -> usize
    requires { end + length (records_line records) ≤ length out.old }
    ensures { Appended (records_line records) out.old end out.new result }
{
    let a = put_bytes(out, end, b"records ");
    put_field(out, a, records as u64, b'\n')
}
