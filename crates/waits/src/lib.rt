// Why a play is stuck: for each task that has accesses left, the ordering it waits for. And why it was stopped: what the read's record
// says and what the memory holds.

#![tactic(auto)]

ghost use Rattle.std.specs.Prelude.{◌++◌, ◌≡◌, ◌+◌, ◌<◌, ◌≤◌, length};
ghost use Rattle.codec.specs.Limit.{max_tasks};
ghost use Rattle.pending.specs.declared.Run.{Run};
ghost use Rattle.pending.specs.Laws.Look.{OneTask};
ghost use Rattle.pending.specs.Laws.Sound.{Sound};
ghost use Rattle.pending.specs.Unmet.{first};
ghost use Rattle.text.specs.Appended.{Appended};
ghost use Rattle.text.specs.Decimal.{field_of};
ghost use Rattle.waits.specs.Differ.{cell_words, differ_line, differ_of, cell_most, differ_most};
ghost use Rattle.waits.specs.Waits.{wait_line, wait_of, waits_of, line_most, waits_most};

use codec::cell::op_cell;
use codec::kind::has_field;
use codec::limit::TASKS;
use codec::read::record;
use codec::{Op, Record};
use entries::Limits;
use entries::entry::{number_at, source_at};
use pending::next::{dones_of, look_at};
use pending::{Run, TaskRun};
use replayer::stepping::held;
use text::{put_byte, put_bytes, put_field};

// The most bytes that the lines can have, one for each of 16 tasks.
pub const MOST_WAITS: usize = 2432;

// Words, a number and the byte after it.
fn put_part(out: &mut [u8], at: usize, words: &[u8], n: u64, after: u8) -> usize
    requires { at + length words.now + 21 ≤ length out.old }
    ensures appended { Appended (words.now ++ field_of n after) out.old at out.new result }
    ensures upper_bound { result ≤ at + length words.now + 21 }
{
    let end = put_bytes(out, at, words);
    put_field(out, end, n, after)
}

// The task, the access it waits for and the offset of the ordering's record.
fn put_line(out: &mut [u8], at: usize, task: usize, source: u16, number: u16, place: usize) -> usize
    requires { at + line_most ≤ length out.old }
    ensures { Appended (wait_line task (first place (record { task = source; number = number }))) out.old at out.new result }
{
    let a = put_part(out, at, b"task ", task as u64, b' ');
    let b = put_part(out, a, b"waits for access ", number as u64, b' ');
    let c = put_part(out, b, b"of task ", source as u64, b',');
    let d = put_part(
        out,
        c,
        b" which never comes (ordering at byte ",
        place as u64,
        b')',
    );
    put_byte(out, d, b'\n')
}

// The line of a task, given its record, the limits and the accesses done of the run. None if it has no accesses left or no ordering holds
// it up.
fn put_wait(
    out: &mut [u8],
    at: usize,
    x: TaskRun,
    bytes: &[u8],
    limits: Limits,
    dones: &[usize; TASKS],
) -> usize
    requires { (limits.tasks ≤ max_tasks) × (x.end ≤ length bytes.now) × (at + line_most ≤ length out.old) }
    ensures { (run : Run) → OneTask run limits.own x limits dones.now
        → Appended (wait_of bytes.now run limits.own) out.old at out.new result }
{
    if x.count <= x.done {
        return at;
    }
    let k = look_at(bytes, x.place, x.end, limits, dones);
    let place = k.scan;
    if k.at <= place {
        return at;
    }
    let source = source_at(bytes, place);
    let number = number_at(bytes, place);
    put_line(out, at, limits.own, source, number, place)
}

// The lines of all tasks, from the start of the output. Returns their length.
pub fn put_waits(bytes: &[u8], run: Run, out: &mut [u8]) -> usize
    requires { Sound run (length bytes.now) × (waits_most ≤ length out.old) }
    ensures { Appended (waits_of bytes.now run) out.old 0 out.new result }
{
    let dones = dones_of(run);
    let mut at = 0;
    for t in 0..run.tasks {
        let x = run.runs[t];
        let limits = Limits {
            tasks: run.tasks,
            objects: run.objects,
            fields: run.fields,
            own: t,
        };
        at = put_wait(out, at, x, bytes, limits, &dones);
    }
    at
}

// The object of a record, or the field of the object if the record names one.
fn put_cell(out: &mut [u8], at: usize, op: Op) -> usize
    requires { at + cell_most ≤ length out.old }
    ensures appended { Appended (cell_words op) out.old at out.new result }
    ensures upper_bound { result ≤ at + cell_most }
{
    if has_field(op.kind) {
        let end = put_part(out, at, b" but field ", op.field as u64, b' ');
        return put_part(out, end, b"of object ", op.object as u64, b' ');
    }
    put_part(out, at, b" but object ", op.object as u64, b' ')
}

// The record's offset, its value, its object and field, and what the memory holds there.
fn put_held(out: &mut [u8], at: usize, op: Op, held: u32) -> usize
    requires { differ_most ≤ length out.old }
    ensures { Appended (differ_line at op held) out.old 0 out.new result }
{
    let a = put_part(out, 0, b"the read at byte ", at as u64, b' ');
    let b = put_part(out, a, b"got ", op.value as u64, b',');
    let c = put_cell(out, b, op);
    put_part(out, c, b"holds ", held as u64, b'\n')
}

// What the record at an offset says that its read got, and what the memory holds, from the start of the output. Returns the length.
pub fn put_differ(bytes: &[u8], fields: usize, memory: &[u32], at: usize, out: &mut [u8]) -> usize
    requires { (fields < 65536) × (differ_most ≤ length out.old) }
    ensures { Appended (differ_of fields bytes.now memory.now at) out.old 0 out.new result }
{
    let from = at.min(bytes.len());
    let Ok(r) = record(&bytes[from..]) else {
        return 0;
    };
    let Record::Access(op) = r else {
        return 0;
    };
    put_held(out, at, op, held(memory, op_cell(fields, op)))
}
