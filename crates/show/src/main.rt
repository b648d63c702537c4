// The show program (document 02, F-3): lists the records of a recording from a file or standard input.
#![tactic(auto)]

use input::{Program, complain, with_task};
use listing::{space, tell};

const PROGRAM: Program = Program {
    name: b"show",
    options: b" [--task TASK]",
    expected: b"a recording",
    help: b"Lists the records of a recording, one a line, in the order of the file. Nothing is played.

Reads FILE; with no FILE, or with -, standard input. A recording has at most 65,536 bytes; more give: long.
With --task TASK it lists only the section of that task.

Each line begins with the offset of its record:
  0 head T N                        T tasks, N objects; T N F if each object has F fields
  18 section TASK ACCESSES BYTES    a task, how many accesses it has, how many bytes their records take
  40 ordering 0 after 1 1           the next access of task 0 comes after access 1 of task 1
  48 0 2 R 0 7                      access 2 of task 0 is a read of object 0 and got 7; W is a write;
                                    with fields the field stands after the object
A read that was recorded without its value has - instead of it.
The last line says how many records the whole file has, with --task too:
  records 10                        head, sections, orderings and accesses together

If the input is not a valid recording it lists the records before the one that failed, and then writes
refused, a number, and the offset of the record that failed. A TASK that the recording does not have
gives: refused 5 0.

Writes to standard error what could not be read or written.

There is no exit status: look at what was written.
",
};

// Reads one byte more than a recording may have, to notice a longer one.
fn main(rt: HostRuntime) {
    let mut bytes = [0u8; 65537];
    let Some(chosen) = with_task(rt, PROGRAM, &mut bytes) else {
        return;
    };
    let mut out = space();
    let text = tell(chosen.bytes, chosen.task, &mut out);
    if rt.stdout().write_all(&out[..text]).is_err() {
        complain(rt, b"show: could not write all of the list\n");
    }
}
