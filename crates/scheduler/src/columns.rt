// A run as columns: one array for each field of its tasks. They are lent, where a run by value would be copied.
ghost use Rattle.std.specs.Prelude.{◌≡◌};
ghost use Rattle.scheduler.specs.Laws.Columns.{columns_of, run_of};

use codec::limit::TASKS;
use pending::{Run, TaskRun};

// Kept: parallel arrays, since the orderings are compared with the accesses done as one array, which an array of tasks would hold a second time.
#[derive(Clone, Copy, Debug, PartialEq, Eq)]
pub struct Columns {
    pub places: [usize; TASKS],
    pub ends: [usize; TASKS],
    pub dones: [usize; TASKS],
    pub counts: [usize; TASKS],
}

pub fn columns_of(run: Run) -> Columns
    ensures { result ≡ columns_of run }
{
    Columns {
        places: run.runs.map(|x| x.place),
        ends: run.runs.map(|x| x.end),
        dones: run.runs.map(|x| x.done),
        counts: run.runs.map(|x| x.count),
    }
}

// The run that the columns represent.
pub fn run_of(
    tasks: usize,
    objects: usize,
    fields: usize,
    places: &[usize; TASKS],
    ends: &[usize; TASKS],
    dones: &[usize; TASKS],
    counts: &[usize; TASKS],
) -> Run
    ensures { result ≡ run_of tasks objects fields places.now ends.now dones.now counts.now }
{
    let mut runs = [TaskRun::default(); TASKS];
    for t in 0..TASKS {
        runs[t] = TaskRun {
            place: places[t],
            end: ends[t],
            done: dones[t],
            count: counts[t],
        };
    }
    Run {
        tasks,
        objects,
        fields,
        runs,
    }
}
