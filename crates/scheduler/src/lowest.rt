// The lowest ready task of a run in columns: each play asks for it, and that task moves on.
ghost use Rattle.std.specs.Prelude.{◌≡◌};
ghost use Rattle.scheduler.specs.Laws.Columns.{run_of};
ghost use Rattle.scheduler.specs.Laws.ColumnsCode.{Columned};
ghost use Rattle.scheduler.specs.Laws.Lowest.{lowest_of, after_of};

use crate::visit::visit;
use codec::Op;
use codec::limit::TASKS;
use pending::TaskRun;

// A ready task and its next access.
#[derive(Clone, Copy, Debug, PartialEq, Eq)]
pub struct Chosen {
    pub task: usize,
    pub op: Op,
}

// Tests the tasks from 0 on until one may go: it moves on to the place after its access, with one more done. What was found about the
// waiting tasks is kept in the notes. The access is rebuilt from its fields: as a whole it was copied by loads that wait for several stores.
// Kept: ten parameters, since each column is lent by itself: some to be written and some only to be read, which one struct would not tell.
#[inline(always)]
pub fn lowest(
    tasks: usize,
    objects: usize,
    fields: usize,
    bytes: &[u8],
    places: &mut [usize; TASKS],
    ends: &[usize; TASKS],
    dones: &mut [usize; TASKS],
    counts: &[usize; TASKS],
    scans: &mut [usize; TASKS],
    ats: &mut [usize; TASKS],
) -> Option<Chosen>
    requires { Columned bytes.now tasks objects fields places.old ends.now dones.old counts.now scans.old ats.old }
    ensures value { result ≡ lowest_of (run_of tasks objects fields places.old ends.now dones.old counts.now) bytes.now }
    ensures counts_after { run_of tasks objects fields places.new ends.now dones.new counts.now
        ≡ after_of (run_of tasks objects fields places.old ends.now dones.old counts.now) bytes.now }
    ensures columned { Columned bytes.now tasks objects fields places.new ends.now dones.new counts.now scans.new ats.new }
{
    for t in 0..tasks {
        let x = TaskRun {
            place: places[t],
            end: ends[t],
            done: dones[t],
            count: counts[t],
        };
        let going = visit(x, bytes, tasks, objects, fields, t, dones, scans, ats);
        if let Some(open) = going {
            places[t] = open.next;
            dones[t] = x.done + 1;
            return Some(Chosen {
                task: t,
                op: Op {
                    kind: open.op.kind,
                    object: open.op.object,
                    field: open.op.field,
                    value: open.op.value,
                },
            });
        }
    }
    None
}
