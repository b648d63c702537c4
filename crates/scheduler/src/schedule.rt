// The order in which "lowest ready task first" steps the tasks.
ghost use Rattle.std.specs.Prelude.{◌≡◌, length};
ghost use Rattle.codec.specs.Store.{store};
ghost use Rattle.scheduler.specs.Schedule.{schedule_from};

use crate::columns::columns_of;
use crate::lowest::lowest;
use codec::limit::TASKS;
use pending::Run;
use pending::sound::sound;

// Writes the tasks from the start of the buffer, one byte for each step, until no task is ready or the buffer is full. Returns the number
// of steps.
pub fn schedule(run: Run, bytes: &[u8], out: &mut [u8]) -> usize
    ensures value { result ≡ length (schedule_from (length out.old) bytes.now run) }
    ensures out_after { out.new ≡ store out.old 0 (schedule_from (length out.old) bytes.now run) }
{
    if !sound(run, bytes.len()) {
        return 0;
    }
    let c = columns_of(run);
    let mut places = c.places;
    let ends = c.ends;
    let mut dones = c.dones;
    let counts = c.counts;
    let mut scans = [0usize; TASKS];
    let mut ats = [0usize; TASKS];
    for steps in 0..out.len() {
        let next = lowest(
            run.tasks,
            run.objects,
            run.fields,
            bytes,
            &mut places,
            &ends,
            &mut dones,
            &counts,
            &mut scans,
            &mut ats,
        );
        let Some(chosen) = next else {
            return steps;
        };
        out[steps] = chosen.task as u8;
    }
    out.len()
}
