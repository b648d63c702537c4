// A recording played without a memory, always the lowest ready task, until no task is ready.
ghost use Rattle.std.specs.Prelude.{true, ◌≡◌, ◌<◌, length};
ghost use Rattle.pending.specs.Sound.{sound_of};
ghost use Rattle.scheduler.specs.Finish.{left_over};
ghost use Rattle.scheduler.specs.Schedule.{schedule_of, settled_of};
ghost use Rattle.playability.specs.declared.settle.Settled.{Settled};
ghost use Rattle.playability.specs.Settle.{settle_of};

use codec::limit::TASKS;
use entries::Refusal;
use pending::Run;
use reader::layout::locate;
use replayer::start::started;
use scheduler::columns::{columns_of, run_of};
use scheduler::lowest::lowest;

// The run at the start and where no task is ready, and the number of steps between them.
#[derive(Clone, Copy, Debug, PartialEq, Eq)]
pub struct Settled {
    pub start: Run,
    pub run: Run,
    pub steps: usize,
}

// As long as a task is ready, the lowest one moves on. Each step leaves one access fewer.
fn play(start: Run, bytes: &[u8]) -> Settled
    requires { (sound_of start (length bytes.now) ≡ true) × (left_over start < 18446744073709551616) }
    ensures { result ≡ record { start = start; run = settled_of bytes.now start; steps = length (schedule_of bytes.now start) } }
{
    let c = columns_of(start);
    let mut places = c.places;
    let ends = c.ends;
    let mut dones = c.dones;
    let counts = c.counts;
    let mut scans = [0usize; TASKS];
    let mut ats = [0usize; TASKS];
    let mut steps: usize = 0;
    loop {
        let next = lowest(
            start.tasks,
            start.objects,
            start.fields,
            bytes,
            &mut places,
            &ends,
            &mut dones,
            &counts,
            &mut scans,
            &mut ats,
        );
        let Some(_) = next else {
            let run = run_of(
                start.tasks,
                start.objects,
                start.fields,
                &places,
                &ends,
                &dones,
                &counts,
            );
            return Settled { start, run, steps };
        };
        steps += 1;
    }
}

// Where the play of a recording stops.
pub fn settle(bytes: &[u8]) -> Result<Settled, Refusal>
    ensures { result ≡ settle_of bytes.now }
{
    let start = started(locate(bytes)?);
    Ok(play(start, bytes))
}
