// What opening sets: the memory to the starting values, each task to the start of its body.
ghost use Rattle.std.specs.Prelude.{◌≡◌};
ghost use Rattle.codec.specs.Reason.{number_of};
ghost use Rattle.replayer.specs.OpenOf.{starts_of, begun_of, refused_open};
ghost use Rattle.replayer.specs.OpenedOf.{counted};

use crate::Opened;
use codec::limit::TASKS;
use codec::number::Reason;
use pending::{Run, TaskRun};
use reader::Span;
use reader::layout::Layout;

// The first `tasks` tasks at the start of their bodies; a run has 16.
fn starts(spans: [Span; TASKS], tasks: usize) -> [TaskRun; TASKS]
    ensures { result ≡ starts_of spans tasks }
{
    let mut runs = [TaskRun::default(); TASKS];
    let few = tasks.min(TASKS);
    for t in 0..few {
        let s = spans[t];
        runs[t] = TaskRun {
            place: s.start,
            end: s.stop,
            done: 0,
            count: s.accesses,
        };
    }
    runs
}

// The run at the start of a layout's bodies. It needs no memory.
pub fn started(l: Layout) -> Run
    ensures { result ≡ begun_of l }
{
    Run {
        tasks: l.tasks,
        objects: l.objects,
        fields: l.fields,
        runs: starts(l.spans, l.tasks),
    }
}

// A refused opening: the blank run.
pub(crate) fn refused(reason: Reason, offset: usize) -> Opened
    ensures { result ≡ counted (refused_open (number_of reason) offset) 0 }
{
    Opened {
        number: reason.number(),
        offset,
        records: 0,
        run: Run::default(),
    }
}
