// What is next for a task: its next access with the orderings before it, compared with the accesses done.
ghost use Rattle.std.specs.Prelude.{◌≡◌, ◌≤◌, ◌<◌, length};
ghost use Rattle.codec.specs.Limit.{max_tasks};
ghost use Rattle.pending.specs.Run.{task_at};
ghost use Rattle.pending.specs.Dones.{dones_of};
ghost use Rattle.pending.specs.FirstUnmet.{InGroup, Scanned, Looked};
ghost use Rattle.pending.specs.Look.{group_at, Opens};
ghost use Rattle.pending.specs.Next.{next_of};

use crate::Run;
use codec::Op;
use codec::field::get16;
use codec::kind::{ORDERING, length_of};
use codec::limit::TASKS;
use codec::read::is_ordering;
use entries::entry::{access_stands, entry_at, number_at, ordering_ok, source_at};
use entries::{Limits, Refusal};

// An access that may be done now, with the place after it.
#[derive(Clone, Copy, Debug, PartialEq, Eq)]
pub struct Open {
    pub op: Op,
    pub next: usize,
}

// What is found at a task's next group: the access that may be done, none where an ordering holds it up, or why the records are refused; and how
// far the scan got. `at` is the place of the access's record, `scan` the place of the first unmet ordering before it, or `at` if all are met; both
// are 0 if the group is refused.
#[derive(Clone, Copy)]
pub struct Look {
    pub next: Result<Option<Open>, Refusal>,
    pub scan: usize,
    pub at: usize,
}

// The place of the first unmet ordering from `from` on, or `at`, the place of the access's record. There are only orderings up to that
// record, and only their sources and numbers are read.
// Kept: a `while` over places, since the place itself is the answer and a chain over chunks would compute it back from an index.
pub fn first_unmet(bytes: &[u8], from: usize, at: usize, dones: &[usize; TASKS]) -> usize
    requires { InGroup bytes.now dones.now from at }
    ensures { Scanned bytes.now dones.now from at result }
{
    let mut place = from;
    while place < at {
        let source = source_at(bytes, place) as usize;
        let number = number_at(bytes, place) as usize;
        if dones[source] < number {
            return place;
        }
        place += length_of(ORDERING) as usize;
    }
    place
}

// The group between two places, compared with the accesses done. All of it is read before any ordering is compared.
#[inline(always)]
pub fn look_at(
    bytes: &[u8],
    from: usize,
    end: usize,
    limits: Limits,
    dones: &[usize; TASKS],
) -> Look
    requires { (limits.tasks ≤ max_tasks) × (end ≤ length bytes.now) }
    ensures { Looked limits bytes.now dones.now from end result }
{
    let found = match entry_at(bytes, from, end, limits) {
        Ok(found) => found,
        Err(refusal) => {
            return Look {
                next: Err(refusal),
                scan: 0,
                at: 0,
            };
        }
    };
    let at = found.at;
    let scan = first_unmet(bytes, from, at, dones);
    if scan < at {
        return Look {
            next: Ok(None),
            scan,
            at,
        };
    }
    Look {
        next: Ok(Some(Open {
            op: found.op,
            next: found.next,
        })),
        scan,
        at,
    }
}

// Whether the group between two places ends with an access that may be done. A caller who asks no more is answered at the first ordering that is
// not met: nothing behind it is read. A replay by the ready word that asked `look_at`, when the compiler still called it, took 1.1 of its time.
// Kept: a `while` over places, since the records of a group have different lengths.
pub fn open_at(
    bytes: &[u8],
    from: usize,
    end: usize,
    limits: Limits,
    dones: &[usize; TASKS],
) -> bool
    requires { (limits.tasks ≤ max_tasks) × (end ≤ length bytes.now) }
    ensures { Opens dones.now from (group_at limits bytes.now from end) result }
{
    let mut place = from;
    while place < end {
        let rest = &bytes[place..end];
        if !is_ordering(rest) {
            return access_stands(rest, limits);
        }
        let source = get16(rest, 4);
        let number = get16(rest, 6);
        if !ordering_ok(source, number, limits) {
            return false;
        }
        if dones[source as usize] < number as usize {
            return false;
        }
        place = place + length_of(ORDERING) as usize;
    }
    false
}

// The number of accesses done, for each task.
pub fn dones_of(run: Run) -> [usize; TASKS]
    ensures { result ≡ dones_of run.runs }
{
    run.runs.map(|x| x.done)
}

// The next group of a task, with the run's T, N and number of fields.
pub fn next_of(run: Run, bytes: &[u8], task: usize) -> Result<Option<Open>, Refusal>
    requires { (run.tasks ≤ max_tasks) × (task < max_tasks) × ((task_at run.runs task).end ≤ length bytes.now) }
    ensures { result ≡ next_of run bytes.now task }
{
    let x = run.runs[task];
    let limits = Limits {
        tasks: run.tasks,
        objects: run.objects,
        fields: run.fields,
        own: task,
    };
    let dones = dones_of(run);
    look_at(bytes, x.place, x.end, limits, &dones).next
}
