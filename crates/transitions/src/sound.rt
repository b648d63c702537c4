// The soundness test of a recording state.
ghost use Rattle.std.specs.Prelude.{◌≡◌, ◌≤◌, min};
ghost use Rattle.codec.specs.Cell.{cells_of};
ghost use Rattle.codec.specs.Limit.{max_tasks, max_cells};
ghost use Rattle.tracker.specs.Laws.Scan.{counters_sound};
ghost use Rattle.tracker.specs.Sound.{last_sound, task_sound, tasks_sound, cell_sound, sound_of};

use crate::counters_of;
use codec::Position;
use codec::cell::cells_of;
use codec::limit::{CELLS, FIELDS, OBJECTS, TASKS, within};
use tracker::{Counters, Locality, State};

// There is no Last and then no share, or Last's task has made that access.
fn last_sound(last: Position, tasks: u16, shares: u32, done: [u16; TASKS]) -> bool
    requires { tasks ≤ max_tasks }
    ensures { result ≡ last_sound last tasks shares done }
{
    if last.number == 0 {
        return shares == 0;
    }
    if tasks <= last.task {
        return false;
    }
    let task = last.task as usize;
    last.number <= done[task]
}

// No Seen above G, no Took beyond Done; Done is at most 65,535 by its type.
fn task_sound(done: u16, seen: u32, took: u16, shares: u32) -> bool
    ensures { result ≡ task_sound done seen took shares }
{
    seen <= shares && took <= done
}

// A holder is a task, and a share number is 1 to G.
fn cell_sound(locality: Locality, tasks: u16, shares: u32) -> bool
    ensures { result ≡ cell_sound locality tasks shares }
{
    match locality {
        Locality::WriteExclusive(holder) => holder < tasks,
        Locality::ReadExclusive(holder) => holder < tasks,
        Locality::ReadShared(share) => 1 <= share && share <= shares,
    }
}

// Each task, and G at most the sum of Done.
fn tasks_sound(
    tasks: u16,
    shares: u32,
    done: [u16; TASKS],
    seen: [u32; TASKS],
    took: [u16; TASKS],
) -> bool
    requires { tasks ≤ max_tasks }
    ensures { result ≡ tasks_sound tasks shares done seen took }
{
    let mut sum: u32 = 0;
    for t in 0..tasks as usize {
        if !task_sound(done[t], seen[t], took[t], shares) {
            return false;
        }
        sum += done[t] as u32;
    }
    shares <= sum
}

// Everything except the cells: T, N and F, Last, each task.
fn counters_sound(counters: Counters) -> bool
    ensures { result ≡ counters_sound counters }
{
    let tasks = counters.tasks;
    let shares = counters.shares;
    let last = counters.last;
    let done = counters.done;
    let seen = counters.seen;
    let took = counters.took;
    if !within(1, TASKS, tasks as usize) {
        return false;
    }
    if !within(1, OBJECTS, counters.objects as usize) {
        return false;
    }
    if FIELDS < counters.fields as usize {
        return false;
    }
    if !last_sound(last, tasks, shares, done) {
        return false;
    }
    tasks_sound(tasks, shares, done, seen, took)
}

// The number of cells that have a record; an unsound state may name more.
fn cells_in(objects: u16, fields: u16) -> usize
    ensures { result ≡ min (cells_of fields objects) max_cells }
{
    cells_of(fields as usize, objects as usize).min(CELLS)
}

// Whether a recording state is sound; if not, the number is 17. The state is lent: it would be copied for each call that took it.
pub fn sound(state: &State) -> bool
    ensures { result ≡ sound_of state.now }
{
    let counters = counters_of(state);
    if !counters_sound(counters) {
        return false;
    }
    let cells = cells_in(counters.objects, counters.fields);
    for record in &state.cells[..cells] {
        if !cell_sound(record.locality, counters.tasks, counters.shares) {
            return false;
        }
    }
    true
}
