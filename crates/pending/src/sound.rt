// The soundness test of a run: one pass over the tasks below T.
ghost use Rattle.std.specs.Prelude.{◌≡◌};
ghost use Rattle.pending.specs.Sound.{task_sound, sound_of};

use crate::{Run, TaskRun};
use codec::limit::{FIELDS, OBJECTS, TASKS, within};

// Done is at most the section's count, the place at most the end, the end within the bytes.
#[tactic(auto, unfolding(crate::specs::Sound::task_sound))]
fn task_sound(x: TaskRun, size: usize) -> bool
    ensures { result ≡ task_sound size x }
{
    x.done <= x.count && x.place <= x.end && x.end <= size
}

// Whether a run over `size` bytes is sound (document 01); if not, the number is 17.
pub fn sound(run: Run, size: usize) -> bool
    ensures { result ≡ sound_of run size }
{
    if !within(1, TASKS, run.tasks) {
        return false;
    }
    if !within(1, OBJECTS, run.objects) {
        return false;
    }
    if FIELDS < run.fields {
        return false;
    }
    for t in 0..run.tasks {
        if !task_sound(run.runs[t], size) {
            return false;
        }
    }
    true
}
