// Packs the sections of a whole recording in one call.
ghost use Rattle.std.specs.Prelude.{◌≡◌};
ghost use Rattle.codec.specs.Store.{store};
ghost use Rattle.sections.specs.PackOf.{pack_of};
ghost use Rattle.linked.specs.Answers.{pack_numbers};
ghost use Rattle.arrays.specs.Halves.{state_in};

use crate::answers::put;
use arrays::state_of;
use sections::pack::pack;

// `ends` gives the offset in `logs` where each task's log ends. The answer is number, task, offset in the task's log, and bytes written.
#[unsafe(no_mangle)]
pub extern "C" fn wk_pack(
    halves: &[u16; 4133],
    words: &[u32; 2065],
    logs: &[u8],
    ends: &[usize],
    out: &mut [u8],
    answer: &mut [usize; 7],
)
    ensures answer_after { answer.new ≡ store answer.old 0 (pack_numbers (pack_of (state_in halves.now words.now) logs.now ends.now out.old).answer) }
    ensures out_after { out.new ≡ (pack_of (state_in halves.now words.now) logs.now ends.now out.old).out }
{
    let state = state_of(halves, words);
    let r = pack(state, logs, ends, out);
    put(answer, &[r.number as usize, r.task, r.offset, r.written]);
}
