// What the playable program writes for a recording (document 02, F-2): yes and the order, or no and what holds it up.

#![tactic(auto)]

ghost use Rattle.std.specs.Prelude.{◌+◌, ◌≤◌, length};
ghost use Rattle.io.specs.Counts.{IsPrefixLen};
ghost use Rattle.replay_lines.specs.Limits.{longest};
ghost use Rattle.text.specs.Appended.{Appended};
ghost use Rattle.text.specs.Zeros.{Zeros};
ghost use Rattle.verdict.specs.Reasons.{reasons_of};
ghost use Rattle.verdict.specs.Streams.{streams_of};
ghost use Rattle.verdict.specs.Text.{steps_of, yes_of, no_of, text_of, most};
ghost use Rattle.waits.specs.Waits.{waits_most};

use playability::playable_settled;
use playability::settle::settle;
use replay_lines::{LONGEST, Written, blank_order, put_refusal, silent};
use text::{filled, put_bytes, put_field};
use waits::{MOST_WAITS, put_waits};

// The most bytes that a text can have.
pub const MOST: usize = 32776;

// A buffer for a text.
pub fn space() -> [u8; MOST]
    ensures { Zeros most result }
{
    filled(0)
}

// A line for each step.
fn put_steps(out: &mut [u8], at: usize, order: &[u8]) -> usize
    requires { at + length (steps_of order.now) ≤ length out.old }
    ensures { Appended (steps_of order.now) out.old at out.new result }
{
    let mut end = at;
    for task in order {
        end = put_field(out, end, *task as u64, b'\n');
    }
    end
}

fn put_yes(out: &mut [u8], order: &[u8]) -> usize
    requires { length (yes_of order.now) ≤ length out.old }
    ensures { Appended (yes_of order.now) out.old 0 out.new result }
{
    let a = put_bytes(out, 0, b"yes ");
    let b = put_field(out, a, order.len() as u64, b'\n');
    put_steps(out, b, order)
}

fn put_no(out: &mut [u8], task: usize, offset: usize) -> usize
    requires { length (no_of task offset) ≤ length out.old }
    ensures { Appended (no_of task offset) out.old 0 out.new result }
{
    let a = put_bytes(out, 0, b"no ");
    let b = put_field(out, a, task as u64, b' ');
    put_field(out, b, offset as u64, b'\n')
}

// The answer of the call as text; the reasons, what each task waits for where the play stops, only where there is no order. The bytes are
// checked and played to that place once.
fn put_answer(bytes: &[u8], out: &mut [u8], why: &mut [u8]) -> Written
    requires { (length bytes.now ≤ longest) × (most ≤ length out.old) × (waits_most ≤ length why.old) }
    ensures appended { Appended (text_of bytes.now) out.old 0 out.new result.text }
    ensures appended_2 { Appended (reasons_of bytes.now) why.old 0 why.new result.reasons }
{
    let s = match settle(bytes) {
        Ok(s) => s,
        Err(refusal) => {
            let text = put_refusal(out, 0, refusal.reason.number(), refusal.offset);
            return Written { text, reasons: 0 };
        }
    };
    let mut order = blank_order();
    let a = playable_settled(Ok(s), bytes, &mut order);
    if a.number == 0 {
        let text = put_yes(out, &order[..a.steps]);
        return Written { text, reasons: 0 };
    }
    let text = put_no(out, a.task, a.offset);
    let reasons = put_waits(bytes, s.run, why);
    Written { text, reasons }
}

// The text of a recording from the start of `out`, and why it cannot be played to its end from the start of `why`. Nothing if one of them
// is shorter than the longest it may have to hold.
pub fn tell(bytes: &[u8], out: &mut [u8], why: &mut [u8]) -> Written
    ensures appended { Appended (streams_of (length out.old) (length why.old) bytes.now).text out.old 0 out.new result.text }
    ensures appended_2 { Appended (streams_of (length out.old) (length why.old) bytes.now).reasons why.old 0 why.new result.reasons }
    ensures prefix_len { IsPrefixLen result.text out.new }
    ensures prefix_len_2 { IsPrefixLen result.reasons why.new }
{
    if out.len() < MOST {
        return silent();
    }
    if why.len() < MOST_WAITS {
        return silent();
    }
    if LONGEST < bytes.len() {
        let text = put_bytes(out, 0, b"long\n");
        return Written { text, reasons: 0 };
    }
    put_answer(bytes, out, why)
}
