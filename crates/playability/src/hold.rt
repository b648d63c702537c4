// What holds a run up: the lowest task that has accesses left, with the first unmet ordering before its next one.
ghost use Rattle.std.specs.Prelude.{◌≡◌, ◌≤◌, length};
ghost use Rattle.codec.specs.Limit.{max_tasks};
ghost use Rattle.pending.specs.declared.Run.{Run};
ghost use Rattle.pending.specs.Laws.Look.{OneTask};
ghost use Rattle.pending.specs.Laws.Sound.{Sound};
ghost use Rattle.pending.specs.Unmet.{unmet_next};
ghost use Rattle.playability.specs.Hold.{offset_in, hold_of};

use codec::limit::TASKS;
use entries::Limits;
use pending::next::{dones_of, look_at};
use pending::{Run, TaskRun};

// The task that is held, and the offset of the ordering that is not met.
#[derive(Clone, Copy, Debug, PartialEq, Eq)]
pub struct Held {
    pub task: usize,
    pub offset: usize,
}

// The offset of the first unmet ordering before a task's next access, 0 if there is none; given the task's record, the limits and the
// accesses done of the run.
fn offset_of(x: TaskRun, bytes: &[u8], limits: Limits, dones: &[usize; TASKS]) -> usize
    requires { (limits.tasks ≤ max_tasks) × (x.end ≤ length bytes.now) }
    ensures { (run : Run) → OneTask run limits.own x limits dones.now → result ≡ offset_in (unmet_next run bytes.now limits.own) }
{
    let k = look_at(bytes, x.place, x.end, limits, dones);
    if k.scan < k.at {
        return k.scan;
    }
    0
}

// The tasks are tested from 0 on; none has accesses left where nothing is held.
pub(crate) fn hold_of(run: Run, bytes: &[u8]) -> Option<Held>
    requires { Sound run (length bytes.now) }
    ensures { result ≡ hold_of bytes.now run }
{
    let dones = dones_of(run);
    for t in 0..run.tasks {
        let x = run.runs[t];
        if x.done < x.count {
            let limits = Limits {
                tasks: run.tasks,
                objects: run.objects,
                fields: run.fields,
                own: t,
            };
            let offset = offset_of(x, bytes, limits, &dones);
            return Some(Held { task: t, offset });
        }
    }
    None
}
