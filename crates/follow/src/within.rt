// The place that counts name: whether tasks are there, and a run that goes no further.
ghost use Rattle.std.specs.Prelude.{◌≡◌, ◌≤◌, length};
ghost use Rattle.codec.specs.Limit.{max_tasks};
ghost use Rattle.pending.specs.Laws.Moved.{Shaped};
ghost use Rattle.follow.specs.Within.{is_there, all_there, run_within};

use pending::Run;

// Whether a task has done as many accesses as its count; a task without a count never has.
pub(crate) fn is_there(run: Run, counts: &[u32], task: usize) -> bool
    requires { length counts.now ≤ max_tasks }
    ensures { result ≡ is_there counts.now run task }
{
    let Some(count) = counts.get(task) else {
        return false;
    };
    *count as usize <= run.runs[task].done
}

// Whether all tasks have. If there are no counts, no place is named.
pub(crate) fn all_there(run: Run, counts: &[u32]) -> bool
    requires { length counts.now ≤ max_tasks }
    ensures { result ≡ all_there counts.now run }
{
    if counts.is_empty() {
        return false;
    }
    for t in 0..counts.len() {
        if !is_there(run, counts, t) {
            return false;
        }
    }
    true
}

// The run without the accesses beyond the counts.
pub fn within(run: Run, counts: &[u32]) -> Run
    requires { Shaped run × (length counts.now ≤ max_tasks) }
    ensures { result ≡ run_within counts.now run }
{
    let mut runs = run.runs;
    for t in 0..counts.len() {
        runs[t].count = runs[t].count.min(counts[t] as usize);
    }
    Run { runs, ..run }
}
