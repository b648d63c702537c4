// The step that changes a lent run in place: the step by value, then its run is stored.
ghost use Rattle.std.specs.Prelude.{◌≡◌};
ghost use Rattle.replayer.specs.StepOf.{step_of};
ghost use Rattle.replayer.specs.InPlace.{shown_of};

use crate::{Stepped, step};
use pending::Run;

// The access that was done, as in `Stepped`; the run is where it was lent.
// Kept: a number and no Result, as in `Stepped`.
#[derive(Clone, Copy, Debug, PartialEq, Eq)]
pub struct Step {
    pub number: u32,
    pub offset: usize,
    pub kind: u16,
    pub object: usize,
    pub field: usize,
    pub value: u32,
    pub access: usize,
}

// The answer of a step without its run.
impl From<Stepped> for Step {
    fn from(s: Stepped) -> Step
        ensures { result ≡ shown_of s }
    {
        Step {
            number: s.number,
            offset: s.offset,
            kind: s.kind,
            object: s.object,
            field: s.field,
            value: s.value,
            access: s.access,
        }
    }
}

// Does a task's next access on the memory and moves the run on; a refused step changes neither.
pub fn step_in_place(run: &mut Run, bytes: &[u8], memory: &mut [u32], task: usize) -> Step
    ensures { (result ≡ shown_of (step_of run.old bytes.now memory.old task).answer)
        × (run.new ≡ (step_of run.old bytes.now memory.old task).answer.run)
        × (memory.new ≡ (step_of run.old bytes.now memory.old task).memory) }
{
    let s = step(*run, bytes, memory, task);
    *run = s.run;
    Step::from(s)
}
