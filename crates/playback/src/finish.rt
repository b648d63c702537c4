// Plays a run, always the lowest ready task, until a step is not taken; and whether a run has finished.
ghost use Rattle.std.specs.Prelude.{◌≡◌, true, cond, ◌<◌};
ghost use Rattle.codec.specs.Kind.{writes as writes_kind};
ghost use Rattle.replayer.specs.Memory.{performed, agrees as agrees_with};
ghost use Rattle.entries.specs.Reading.{numbered};
ghost use Rattle.scheduler.specs.Laws.Columns.{all_done_of};
ghost use Rattle.scheduler.specs.Finish.{left_over, finish_of};
ghost use Rattle.playback.specs.Shown.{shown_play, finished_call};
ghost use Rattle.scheduler.specs.Laws.Finish.{Playing};

use codec::Op;
use codec::cell::op_cell;
use codec::kind::access_kind;
use codec::limit::TASKS;
use codec::number::Reason;
use entries::Checked;
use pending::Run;
use pending::sound::sound;
use replayer::stepping::{agrees, perform, record_at};
use scheduler::columns::columns_of;
use scheduler::lowest::{Chosen, lowest};

// Whether a run has finished; 17 and false if it is not sound.
#[derive(Clone, Copy)]
pub struct Completion {
    pub number: u32,
    pub finished: bool,
}

// The result of a play: T, N, the number of steps, and whether it finished. `stopped` is 19 and the offset of a read's record if the
// memory differs from it, else 0 and 0; a play that has neither finished nor been stopped is stuck.
#[derive(Clone, Copy)]
pub struct Played {
    pub tasks: usize,
    pub objects: usize,
    pub steps: usize,
    pub finished: bool,
    pub stopped: Checked,
}

fn result_of(
    tasks: usize,
    objects: usize,
    steps: usize,
    finished: bool,
    number: u32,
    offset: usize,
) -> Played
    ensures { result ≡ record { tasks = tasks; objects = objects; steps = steps; finished = finished; stopped = numbered number offset } }
{
    Played {
        tasks,
        objects,
        steps,
        finished,
        stopped: Checked { number, offset },
    }
}

// Does an access on the memory if the memory agrees with it, and says whether. `write` is the kind of a write under the recording's head: one comparison
// tells reads from writes, which cannot be predicted, and for the five kinds of accesses the compiler would jump by a table.
fn taken(write: u16, op: Op, cell: usize, memory: &mut [u32]) -> bool
    requires { writes_kind write ≡ true }
    ensures value { result ≡ agrees_with cell op memory.old }
    ensures memory_after { memory.new ≡ cond (agrees_with cell op memory.old) (performed cell op memory.old) memory.old }
{
    if op.kind == write {
        perform(op, cell, memory);
        return true;
    }
    if !agrees(op, cell, memory) {
        return false;
    }
    perform(op, cell, memory);
    true
}

// As long as a task is ready, the lowest one is stepped and its access is done on the memory, if the memory agrees with it. Each step
// leaves one access fewer, so the loop ends and the number of steps fits its type.
pub(crate) fn finish(run: Run, bytes: &[u8], memory: &mut [u32]) -> Played
    requires playing { Playing bytes.now (record { run = run; memory = memory.old; steps = 0 }) }
    requires run_bound { left_over run < 18446744073709551616 }
    ensures value { result ≡ shown_play bytes.now (finish_of bytes.now (record { run = run; memory = memory.old; steps = 0 })) }
    ensures memory_after { memory.new ≡ (finish_of bytes.now (record { run = run; memory = memory.old; steps = 0 })).memory }
{
    let c = columns_of(run);
    let mut places = c.places;
    let ends = c.ends;
    let mut dones = c.dones;
    let counts = c.counts;
    let mut scans = [0usize; TASKS];
    let mut ats = [0usize; TASKS];
    let mut steps: usize = 0;
    let write = access_kind(run.fields, true);
    loop {
        let going = lowest(
            run.tasks,
            run.objects,
            run.fields,
            bytes,
            &mut places,
            &ends,
            &mut dones,
            &counts,
            &mut scans,
            &mut ats,
        );
        let Some(Chosen { task, op }) = going else {
            let done = all_done(run.tasks, &dones, &counts);
            return result_of(run.tasks, run.objects, steps, done, 0, 0);
        };
        let cell = op_cell(run.fields, op);
        if !taken(write, op, cell, memory) {
            let at = record_at(op, places[task]);
            return result_of(
                run.tasks,
                run.objects,
                steps,
                false,
                Reason::Differs.number(),
                at,
            );
        }
        steps += 1;
    }
}

// Whether no task has accesses left.
fn all_done(tasks: usize, dones: &[usize; TASKS], counts: &[usize; TASKS]) -> bool
    ensures { result ≡ all_done_of tasks dones.now counts.now }
{
    let few = tasks.min(TASKS);
    for t in 0..few {
        if dones[t] < counts[t] {
            return false;
        }
    }
    true
}

// Whether a run over these bytes has finished.
pub fn finished(run: Run, bytes: &[u8]) -> Completion
    ensures { result ≡ finished_call run bytes.now }
{
    if !sound(run, bytes.len()) {
        return Completion {
            number: Reason::Unsound.number(),
            finished: false,
        };
    }
    let c = columns_of(run);
    let dones = c.dones;
    let counts = c.counts;
    Completion {
        number: 0,
        finished: all_done(run.tasks, &dones, &counts),
    }
}
