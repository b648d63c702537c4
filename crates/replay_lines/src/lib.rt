// The lines that the programs write, each put into the output at an offset; the offset after it is returned.

#![tactic(auto)]

ghost use Rattle.std.specs.Prelude.{◌≡◌, ◌+◌, ◌≤◌, length};
ghost use Rattle.text.specs.Appended.{Appended};
ghost use Rattle.text.specs.Zeros.{Zeros};
ghost use Rattle.replay_lines.specs.Limits.{most_steps};
ghost use Rattle.replay_lines.specs.Lines.{letter_of, object_of, line_of, end_line, refusal_of, memory_of};

use codec::kind::{has_field, reads};
use replayer::Stepped;
use text::{filled, put_byte, put_bytes, put_field, put_number};

pub mod block;

// The most bytes that a recording can have which a program takes.
pub const LONGEST: usize = 65536;

// The most accesses that it can then have.
pub const MOST_STEPS: usize = 10922;

// The number of bytes for standard output (the text) and for standard error (the reasons).
#[derive(Clone, Copy)]
pub struct Written {
    pub text: usize,
    pub reasons: usize,
}

// Nothing on either stream.
pub fn silent() -> Written
    ensures { result ≡ record { text = 0; reasons = 0 } }
{
    Written {
        text: 0,
        reasons: 0,
    }
}

// A buffer with a byte for each step.
pub fn blank_order() -> [u8; MOST_STEPS]
    ensures { Zeros most_steps result }
{
    filled(0)
}

// The letter of an access: R for a read, else W.
pub fn letter(kind: u16) -> u8
    ensures { result ≡ letter_of kind }
{
    if reads(kind) { b'R' } else { b'W' }
}

// The object, and its field if the access's kind names one.
pub fn put_object(out: &mut [u8], at: usize, kind: u16, object: usize, field: usize) -> usize
    requires { at + length (object_of kind object field) ≤ length out.old }
    ensures { Appended (object_of kind object field) out.old at out.new result }
{
    let end = put_field(out, at, object as u64, b' ');
    if has_field(kind) {
        return put_field(out, end, field as u64, b' ');
    }
    end
}

// Task, number of the access, R or W, object and field, value.
pub fn put_step(out: &mut [u8], at: usize, task: usize, s: Stepped) -> usize
    requires { at + length (line_of task s) ≤ length out.old }
    ensures { Appended (line_of task s) out.old at out.new result }
{
    let a = put_field(out, at, task as u64, b' ');
    let b = put_field(out, a, s.access as u64, b' ');
    let c = put_byte(out, b, letter(s.kind));
    let d = put_byte(out, c, b' ');
    let e = put_object(out, d, s.kind, s.object, s.field);
    put_field(out, e, s.value as u64, b'\n')
}

pub fn put_end(out: &mut [u8], at: usize, finished: bool, steps: usize) -> usize
    requires { at + length (end_line finished steps) ≤ length out.old }
    ensures { Appended (end_line finished steps) out.old at out.new result }
{
    if finished {
        let end = put_bytes(out, at, b"end ");
        return put_field(out, end, steps as u64, b'\n');
    }
    let end = put_bytes(out, at, b"stuck ");
    put_field(out, end, steps as u64, b'\n')
}

pub fn put_values(out: &mut [u8], at: usize, memory: &[u32]) -> usize
    requires { at + length (memory_of memory.now) ≤ length out.old }
    ensures { Appended (memory_of memory.now) out.old at out.new result }
{
    let mut end = put_bytes(out, at, b"memory");
    for i in 0..memory.len() {
        end = put_byte(out, end, b' ');
        end = put_number(out, end, memory[i] as u64);
    }
    put_byte(out, end, b'\n')
}

pub fn put_refusal(out: &mut [u8], at: usize, number: u32, offset: usize) -> usize
    requires { at + length (refusal_of number offset) ≤ length out.old }
    ensures { Appended (refusal_of number offset) out.old at out.new result }
{
    let a = put_bytes(out, at, b"refused ");
    let b = put_field(out, a, number as u64, b' ');
    put_field(out, b, offset as u64, b'\n')
}
