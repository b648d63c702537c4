// The recorder's state and a replay's run as arrays of numbers, so that a caller can lend any state, sound or not.
//
// A state's halves are T, N, its number of fields (0 under head 1, else F), Last's task and number, Done and Took of each task, then for
// each of 2,048 cells its case (0 write-held, 1 read-held, 2 shared), and the same for its task; its words are G, Seen of each task, and
// each cell's share number.
// A run's places are T and N, then for each task its place, end, done and count.

#![tactic(auto)]

ghost use Rattle.std.specs.Prelude.{◌≡◌};
ghost use Rattle.codec.specs.Store.{store};
ghost use Rattle.codec.specs.Limit.{max_tasks, max_cells};
ghost use Rattle.tracker.specs.State.{share_of};
ghost use Rattle.tracker.specs.Laws.Counters.{counters_of};
ghost use Rattle.pending.specs.Each.{each};
ghost use Rattle.arrays.specs.Halves.{record_of, record_in, state_in, case_of, cases_of, holders_of, shares_of, first_of, halves_of, words_of};
ghost use Rattle.arrays.specs.Places.{run_in, places_of};

use codec::Position;
use codec::limit::{CELLS, TASKS};
use pending::{Run, TaskRun};
use tracker::{CellRecord, Counters, Locality, State};
use transitions::advance::holder_of;

// A case above 2 means nothing. It is read as shared with share number 0, which is unsound, so each call on it answers 17.
fn record_of(case: u16, task: u16, share: u32) -> CellRecord
    ensures { result ≡ record_of case task share }
{
    let locality = match case {
        0 => Locality::WriteExclusive(task),
        1 => Locality::ReadExclusive(task),
        2 => Locality::ReadShared(share),
        _ => Locality::ReadShared(0),
    };
    CellRecord { locality }
}

fn records_of(halves: &[u16; 4133], words: &[u32; 2065]) -> [CellRecord; CELLS]
    ensures { result ≡ each (record_in halves.now words.now) max_cells }
{
    let blank = record_of(0, 0, 0);
    let mut records = [blank; CELLS];
    for i in 0..CELLS {
        let record = record_of(halves[37 + i], halves[2085 + i], words[17 + i]);
        records[i] = record;
    }
    records
}

// All of a state but its cells' records.
fn counters_of(halves: &[u16; 4133], words: &[u32; 2065]) -> Counters
    ensures { result ≡ counters_of (state_in halves.now words.now) }
{
    let mut done = [0u16; TASKS];
    let mut seen = [0u32; TASKS];
    let mut took = [0u16; TASKS];
    for t in 0..TASKS {
        done[t] = halves[5 + t];
        seen[t] = words[1 + t];
        took[t] = halves[21 + t];
    }
    let last = Position {
        task: halves[3],
        number: halves[4],
    };
    Counters {
        tasks: halves[0],
        objects: halves[1],
        fields: halves[2],
        done,
        seen,
        took,
        shares: words[0],
        last,
    }
}

pub fn state_of(halves: &[u16; 4133], words: &[u32; 2065]) -> State
    ensures { result ≡ state_in halves.now words.now }
{
    let cells = records_of(halves, words);
    let counters = counters_of(halves, words);
    let done = counters.done;
    let seen = counters.seen;
    let took = counters.took;
    let last = counters.last;
    State {
        tasks: counters.tasks,
        objects: counters.objects,
        fields: counters.fields,
        cells,
        done,
        seen,
        took,
        shares: counters.shares,
        last,
    }
}

fn case_of(locality: Locality) -> u16
    ensures { result ≡ case_of locality }
{
    match locality {
        Locality::WriteExclusive(_) => 0,
        Locality::ReadExclusive(_) => 1,
        Locality::ReadShared(_) => 2,
    }
}

// The share number of a shared cell, 0 for any other.
fn share_of(locality: Locality) -> u32
    ensures { result ≡ share_of locality }
{
    match locality {
        Locality::WriteExclusive(_) => 0,
        Locality::ReadExclusive(_) => 0,
        Locality::ReadShared(share) => share,
    }
}

fn put_records(records: [CellRecord; CELLS], halves: &mut [u16; 4133], words: &mut [u32; 2065])
    ensures halves_after { halves.new ≡ store (store halves.old 37 (cases_of records max_cells)) 2085 (holders_of records max_cells) }
    ensures words_after { words.new ≡ store words.old 17 (shares_of records max_cells) }
{
    for i in 0..CELLS {
        let record = records[i];
        let locality = record.locality;
        halves[37 + i] = case_of(locality);
        halves[2085 + i] = holder_of(locality);
        words[17 + i] = share_of(locality);
    }
}

fn put_tasks(
    done: [u16; TASKS],
    seen: [u32; TASKS],
    took: [u16; TASKS],
    halves: &mut [u16; 4133],
    words: &mut [u32; 2065],
)
    ensures halves_after { halves.new ≡ store (store halves.old 5 (first_of done max_tasks)) 21 (first_of took max_tasks) }
    ensures words_after { words.new ≡ store words.old 1 (first_of seen max_tasks) }
{
    for t in 0..TASKS {
        halves[5 + t] = done[t];
        words[1 + t] = seen[t];
        halves[21 + t] = took[t];
    }
}

pub fn put_state(state: State, halves: &mut [u16; 4133], words: &mut [u32; 2065])
    ensures halves_after { halves.new ≡ store halves.old 0 (halves_of state) }
    ensures words_after { words.new ≡ store words.old 0 (words_of state) }
{
    let records = state.cells;
    put_records(records, halves, words);
    let done = state.done;
    let seen = state.seen;
    let took = state.took;
    put_tasks(done, seen, took, halves, words);
    let last = state.last;
    halves[0] = state.tasks;
    halves[1] = state.objects;
    halves[2] = state.fields;
    halves[3] = last.task;
    halves[4] = last.number;
    words[0] = state.shares;
}

pub fn run_of(places: &[usize; 67]) -> Run
    ensures { result ≡ run_in places.now }
{
    let blank = TaskRun {
        place: 0,
        end: 0,
        done: 0,
        count: 0,
    };
    let mut runs = [blank; TASKS];
    for t in 0..TASKS {
        let x = TaskRun {
            place: places[3 + 4 * t],
            end: places[4 + 4 * t],
            done: places[5 + 4 * t],
            count: places[6 + 4 * t],
        };
        runs[t] = x;
    }
    Run {
        tasks: places[0],
        objects: places[1],
        fields: places[2],
        runs,
    }
}

pub fn put_run(run: Run, places: &mut [usize; 67])
    ensures { places.new ≡ store places.old 0 (places_of run) }
{
    places[0] = run.tasks;
    places[1] = run.objects;
    places[2] = run.fields;
    for t in 0..TASKS {
        let x = run.runs[t];
        places[3 + 4 * t] = x.place;
        places[4 + 4 * t] = x.end;
        places[5 + 4 * t] = x.done;
        places[6 + 4 * t] = x.count;
    }
}
