// A run: how far each task has got in its body, whether a run is sound, and what is next for a task. Document 01, "Replay".

#![tactic(auto)]

use codec::limit::TASKS;

pub mod next;
pub mod sound;

// How far a task has got: the place of its next record, its body's end, the number of accesses done and its section's count. All fields
// are `usize`, like the reader's offsets: a count that is never narrowed needs no proof that it fits.
#[derive(Clone, Copy, Debug, Default, PartialEq, Eq)]
pub struct TaskRun {
    pub place: usize,
    pub end: usize,
    pub done: usize,
    pub count: usize,
}

// The state of a replay: T, N, the tasks and the number of fields, which says which head the recording has: 0 for head 1, where an object is a single
// cell, else F. Entries from T on have no meaning. The blank run is all zero.
#[derive(Clone, Copy, Debug, Default, PartialEq, Eq)]
pub struct Run {
    pub tasks: usize,
    pub objects: usize,
    pub runs: [TaskRun; TASKS],
    pub fields: usize,
}
