// Tests one task in the search for the lowest ready one. For a waiting task a note says how far its orderings have been tested, so that
// no ordering is read again once it is met.
ghost use Rattle.std.specs.Prelude.{◌≤◌, ◌<◌, length, get_or};
ghost use Rattle.codec.specs.Limit.{max_tasks};
ghost use Rattle.pending.specs.declared.Run.{Run};
ghost use Rattle.pending.specs.Laws.Look.{OneTask};
ghost use Rattle.scheduler.specs.Laws.Visit.{Note, Noted, Visited};

use codec::limit::TASKS;
use entries::Limits;
use pending::TaskRun;
use pending::next::{Open, first_unmet, look_at};

// The next access of a task if it may be done. The note of a task is the place of the access's record and the place of the
// first ordering before it that was unmet. A step goes past that record, and the note then says nothing.
// Kept: the limits by their numbers, made only where there are records to read: a task that waits or has finished is asked for at every step.
#[inline(always)]
pub(crate) fn visit(
    x: TaskRun,
    bytes: &[u8],
    tasks: usize,
    objects: usize,
    fields: usize,
    own: usize,
    dones: &[usize; TASKS],
    scans: &mut [usize; TASKS],
    ats: &mut [usize; TASKS],
) -> Option<Open>
    requires tasks_le_max_tasks { (tasks ≤ max_tasks) × (own < max_tasks) × (x.end ≤ length bytes.now) }
    requires note { Note (record { tasks = tasks; objects = objects; fields = fields; own = own }) bytes.now dones.now x (get_or scans.old own 0) (get_or ats.old own 0) }
    ensures { (run : Run) → OneTask run own x (record { tasks = tasks; objects = objects; fields = fields; own = own }) dones.now
        → Noted run bytes.now scans.old ats.old
        → Visited run bytes.now own scans.new ats.new result }
{
    if x.count <= x.done {
        return None;
    }
    let noted = ats[own];
    let mut from = x.place;
    let ahead = from < noted;
    if ahead {
        let scan = first_unmet(bytes, scans[own], noted, dones);
        if scan < noted {
            scans[own] = scan;
            return None;
        }
        from = scan;
    }
    let limits = Limits {
        tasks,
        objects,
        fields,
        own,
    };
    let k = look_at(bytes, from, x.end, limits, dones);
    scans[own] = k.scan;
    ats[own] = k.at;
    k.next.unwrap_or(None)
}
