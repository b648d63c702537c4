// What a step does: the checks before the bytes, the access on the memory, the run's change, and the answers.
ghost use Rattle.std.specs.Prelude.{◌≡◌, ◌+◌, ◌<◌, ◌≤◌, get_or};
ghost use Rattle.codec.specs.Encode.{op_length};
ghost use Rattle.codec.specs.Limit.{max_tasks};
ghost use Rattle.pending.specs.Run.{done_of, moved_of};
ghost use Rattle.replayer.specs.Memory.{value_of, performed, agrees as agrees_with};
ghost use Rattle.codec.specs.Reason.{number_of};
ghost use Rattle.replayer.specs.StepOf.{refused_step, early_number, number_in, record_at};
ghost use Rattle.replayer.specs.Laws.StepOf.{due};

use crate::Stepped;
use codec::Op;
use codec::cell::cells_of;
use codec::kind::{length_of, valued_read, writes};
use codec::number::Reason;
use entries::Refusal;
use pending::next::Open;
use pending::sound::sound;
use pending::{Run, TaskRun};

// The checks before the bytes: 17, 3, 5, 15.
#[tactic(auto, unfolding(crate::specs::StepOf::early_number))]
pub(crate) fn check_early(run: Run, size: usize, entries: usize, task: usize) -> Result<(), Reason>
    ensures { number_in result ≡ early_number run size entries task }
{
    if !sound(run, size) {
        return Err(Reason::Unsound);
    }
    if entries != cells_of(run.fields, run.objects) {
        return Err(Reason::Entries);
    }
    if run.tasks <= task {
        return Err(Reason::NoTask);
    }
    let x = run.runs[task];
    if x.count <= x.done {
        return Err(Reason::Finished);
    }
    Ok(())
}

pub(crate) fn refused(run: Run, reason: Reason, offset: usize) -> Stepped
    ensures { result ≡ refused_step run (number_of reason) offset }
{
    Stepped {
        number: reason.number(),
        offset,
        kind: 0,
        object: 0,
        field: 0,
        value: 0,
        access: 0,
        run,
    }
}

// The access that may be done, or why none is: the reader's refusal, or 16.
pub(crate) fn due(next: Result<Option<Open>, Refusal>) -> Result<Open, Refusal>
    ensures { result ≡ due next }
{
    next?.ok_or(Refusal {
        reason: Reason::Held,
        offset: 0,
    })
}

// The value of a cell, 0 past the memory's end.
pub fn held(memory: &[u32], cell: usize) -> u32
    ensures { result ≡ get_or memory.now cell 0 }
{
    memory.get(cell).copied().unwrap_or(0)
}

// Whether the memory holds the value of a read's record in its cell; true if the record holds none.
pub fn agrees(op: Op, cell: usize, memory: &[u32]) -> bool
    ensures { result ≡ agrees_with cell op memory.now }
{
    !valued_read(op.kind) || held(memory, cell) == op.value
}

// The offset of an access's record, which ends at `next`.
pub fn record_at(op: Op, next: usize) -> usize
    requires { op_length op ≤ next }
    ensures { result ≡ record_at op next }
{
    next - length_of(op.kind) as usize
}

// A read returns the memory's value, a write stores and returns its own. Past the memory's end nothing is stored, and 0 is returned.
pub fn perform(op: Op, cell: usize, memory: &mut [u32]) -> u32
    ensures value { result ≡ value_of cell op memory.old }
    ensures memory_after { memory.new ≡ performed cell op memory.old }
{
    if writes(op.kind) {
        if cell < memory.len() {
            memory[cell] = op.value;
        }
        return op.value;
    }
    held(memory, cell)
}

// The task moves on to the place `next`, with one more access done, `access` in all; no other task changes.
#[tactic(auto, unfolding(pending::specs::Run::moved_of))]
pub(crate) fn moved(run: Run, task: usize, next: usize, access: usize) -> Run
    requires { (task < max_tasks) × (access ≡ done_of run.runs task + 1) }
    ensures { result ≡ moved_of run task next }
{
    let mut runs = run.runs;
    runs[task] = TaskRun {
        place: next,
        done: access,
        ..runs[task]
    };
    Run { runs, ..run }
}
