// Copies a task's body out: an exported function cannot return a part of a slice.
ghost use Rattle.std.specs.Prelude.{◌≡◌};
ghost use Rattle.codec.specs.Store.{store};
ghost use Rattle.linked.specs.Answers.{copy_numbers};
ghost use Rattle.linked.specs.CopyOf.{copy_of};

use crate::answers::put;
use codec::number::{NO_ROOM, NO_TASK};
use codec::write::put_bytes;
use reader::layout::locate;

// The answer is number, offset and bytes written. One layout gives the refusal and the body's place: `reader::body` answers an empty part
// for a refusal and for an empty body, and to tell them apart the bytes would be checked again.
#[unsafe(no_mangle)]
pub extern "C" fn wk_body(bytes: &[u8], task: usize, out: &mut [u8], answer: &mut [usize; 7])
    ensures answer_after { answer.new ≡ store answer.old 0 (copy_numbers (copy_of bytes.now task out.old)) }
    ensures out_after { out.new ≡ (copy_of bytes.now task out.old).out }
{
    let l = match locate(bytes) {
        Ok(l) => l,
        Err(refusal) => {
            put(
                answer,
                &[refusal.reason.number() as usize, refusal.offset, 0],
            );
            return;
        }
    };
    if l.tasks <= task {
        put(answer, &[NO_TASK as usize, 0, 0]);
        return;
    }
    let s = l.spans[task];
    let part = &bytes[s.start..s.stop];
    let size = part.len();
    if out.len() < size {
        put(answer, &[NO_ROOM as usize, 0, 0]);
        return;
    }
    put_bytes(out, 0, part);
    put(answer, &[0, 0, size]);
}
