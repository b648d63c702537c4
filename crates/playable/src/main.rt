// The playable program (document 02, F-2): whether a recording from a file or standard input can be played to its end, and in which
// order.
#![tactic(auto)]

use input::{Program, complain, from_arguments};
use verdict::{space, tell};
use waits::MOST_WAITS;

const PROGRAM: Program = Program {
    name: b"playable",
    options: b"",
    expected: b"a recording",
    help: b"Says whether a recording can be played to its end: is there an order of all accesses that keeps each
task's own order and every ordering? Values are not compared; replay does that.

Reads FILE; with no FILE, or with -, standard input. A recording has at most 65,536 bytes; more give: long.

Writes to standard output yes and the number of steps, then the order, one task a line, always the lowest
ready task next. Or no, the lowest task that stays held, and the offset of the first ordering that holds it.
If the input is not a valid recording it writes refused, a number, and the offset of the record that failed.

Writes to standard error what each held task waits for, and what could not be read or written.

There is no exit status: look at what was written.
",
};

// Reads one byte more than a recording may have, to notice a longer one.
fn main(rt: HostRuntime) {
    let mut bytes = [0u8; 65537];
    let Some(bytes) = from_arguments(rt, PROGRAM, &mut bytes) else {
        return;
    };
    let mut out = space();
    let mut why = [0u8; MOST_WAITS];
    let told = tell(bytes, &mut out, &mut why);
    if rt.stdout().write_all(&out[..told.text]).is_err() {
        complain(rt, b"playable: could not write all of the answer\n");
    }
    complain(rt, &why[..told.reasons]);
}
