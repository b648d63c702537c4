// The replay program (document 01; document 02, F-4): plays a recording from a file or standard input, always the lowest ready task, one
// line for each step. Options pause it or give another order.
#![tactic(auto)]

use input::{Program, complain};
use options::{Pause, with_pause};
use waits::MOST_WAITS;

const PROGRAM: Program = Program {
    name: b"replay",
    options: b" [--steps N] [--done N0 N1 ...] [--order FILE]",
    expected: b"a recording",
    help: b"Plays a recording, always the lowest ready task next.

Reads FILE; with no FILE, or with -, standard input. A recording has at most 65,536 bytes; more give: long.

  --steps N          stops after N steps
  --done N0 N1 ...   lets no task go beyond its count, one count for each task; stops when all are there
  --order FILE       follows the task numbers in FILE, one a line (a first line yes N, as playable writes it, is
                     passed over); at most 65,536 bytes; - is standard input

Writes to standard output one line for each step: task, number of the access, R or W, object, value; with
fields the field stands after the object. Then end or stuck with the number of steps, then memory with its
values. If a read's record has another value than the memory, it writes refused 19 and the offset of that
record, and stops. If the input is not a valid recording it writes refused, a number, and the offset of the
record that failed.

With an option it writes, where it stops with accesses left: paused with the number of steps, done with the
accesses that each task has done, ready with the ready tasks, then memory. A step of the order that cannot be
taken is written as its task, refused, and 5 (no such task), 15 (nothing left) or 16 (held). If there is not
one count for each task it writes refused 3 0.

Writes to standard error what each task waits for if no task can go on, what the record and the memory hold
if it was stopped, and what could not be read or written.

There is no exit status: look at what was written.
",
};

// Writes the answer and what there is to say about it.
fn put(rt: HostRuntime, text: &[u8], reasons: &[u8]) {
    if rt.stdout().write_all(text).is_err() {
        complain(rt, b"replay: could not write all of the answer\n");
    }
    complain(rt, reasons);
}

// Plays it to its end.
fn play(rt: HostRuntime, bytes: &[u8]) {
    let mut out = transcript::space();
    let mut why = [0u8; MOST_WAITS];
    let told = transcript::tell(bytes, &mut out, &mut why);
    put(rt, &out[..told.text], &why[..told.reasons]);
}

// Plays the steps that the options ask for. Its buffers must not become part of the frame of `main`, which every start pays for.
#[inline(never)]
fn play_asked(rt: HostRuntime, bytes: &[u8], asked: Pause) {
    let mut out = pause::space();
    let mut why = [0u8; MOST_WAITS];
    let Pause {
        most,
        counts,
        order,
    } = asked;
    let told = pause::tell(bytes, most, counts, order, &mut out, &mut why);
    put(rt, &out[..told.text], &why[..told.reasons]);
}

// Reads one byte more than a recording and an order may have, and one count more than there can be tasks, to notice what is too long.
fn main(rt: HostRuntime) {
    let mut bytes = [0u8; 65537];
    let mut counts = [0u32; 17];
    let mut order = [0u8; 65537];
    let Some(asked) = with_pause(rt, PROGRAM, &mut bytes, &mut counts, &mut order) else {
        return;
    };
    match asked.pause {
        Some(pause) => play_asked(rt, asked.bytes, pause),
        None => play(rt, asked.bytes),
    }
}
