// What is written to standard error if there is no recording.
ghost use Rattle.std.specs.Prelude.{◌≤◌, length};
ghost use Rattle.text.specs.Appended.{Appended};
ghost use Rattle.script.specs.Message.{reason_of, message_of};

use crate::recording::Stop;
use faults::fault::put_fault;
use text::{put_bytes, put_field, put_number};

// Why a line stopped the text: what was expected in it, or the number of its refusal.
fn put_reason(out: &mut [u8], at: usize, text: &[u8], stop: Stop) -> usize
    requires { (at ≤ 25) × (128 ≤ length out.old) × (length text.now ≤ 1048576) }
    ensures appended { Appended (reason_of text.now stop.line stop.number) out.old at out.new result }
    ensures upper_bound { result ≤ 128 }
{
    if stop.number == 0 {
        let end = put_bytes(out, at, b": expected ");
        return put_fault(out, end, text, stop.line);
    }
    let end = put_bytes(out, at, b": refused ");
    put_field(out, end, stop.number as u64, b'\n')
}

// The line that stopped the text, and why; nothing for line 0.
pub(crate) fn put_message(out: &mut [u8], text: &[u8], stop: Stop) -> usize
    requires { (128 ≤ length out.old) × (length text.now ≤ 1048576) }
    ensures appended { Appended (message_of text.now stop.line stop.number) out.old 0 out.new result }
    ensures upper_bound { result ≤ 128 }
{
    if stop.line == 0 {
        return 0;
    }
    let at = put_bytes(out, 0, b"line ");
    let end = put_number(out, at, stop.line as u64);
    put_reason(out, end, text, stop)
}
