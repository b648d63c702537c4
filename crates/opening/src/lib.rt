// Opening a recording (document 01, "Tasks, objects, positions", "Number table"): the checks in their order, the cells' records, the lent
// memory, the head.

#![tactic(auto)]

ghost use Rattle.std.specs.Prelude.{◌≡◌, ◌≤◌, length};
ghost use Rattle.codec.specs.Cell.{cells_of};
ghost use Rattle.codec.specs.Limit.{max_tasks, max_objects, max_fields};
ghost use Rattle.reader.specs.Parse.{all_below};
ghost use Rattle.tracker.specs.Opened.{owned_cells, opened_state};
ghost use Rattle.opening.specs.OpenOf.{entries_ok, open_number, open_by, open_of, open_fields_of};

use codec::Position;
use codec::cell::{cells_of, width_of};
use codec::head::head_length;
use codec::limit::{CELLS, FIELDS, OBJECTS, TASKS, within};
use codec::number::{ENTRIES, NO_FIELD, NO_ROOM, OBJECT_RANGE, OWNER_RANGE, TASK_RANGE};
use codec::write::put_head;
use tracker::{CellRecord, Locality, State};
use transitions::blank;

// The result of opening: the number, the bytes written and the state, which is blank on a refusal.
#[derive(Clone, Copy)]
pub struct Opened {
    pub number: u32,
    pub written: usize,
    pub state: State,
}

// Each owner is below T.
fn owners_below(owners: &[u8], tasks: usize) -> bool
    ensures { result ≡ all_below tasks owners.now }
{
    for owner in owners {
        if tasks <= *owner as usize {
            return false;
        }
    }
    true
}

// N owners, and N times F starting values and entries of memory.
#[tactic(auto, unfolding(crate::specs::OpenOf::entries_ok))]
fn entries_ok(fields: usize, objects: usize, owners: usize, starts: usize, memory: usize) -> bool
    requires { (fields ≤ max_fields) × (objects ≤ max_objects) }
    ensures { result ≡ entries_ok fields objects owners starts memory }
{
    let cells = cells_of(fields, objects);
    owners == objects && starts == cells && memory == cells
}

// The number of an opening that takes `least` to 8 fields: 1, 2, 20, 3, 4, 9, in this order.
fn open_number(
    least: usize,
    fields: usize,
    tasks: usize,
    objects: usize,
    owners: &[u8],
    starts: usize,
    memory: usize,
    out: usize,
) -> u32
    ensures { result ≡ open_number least fields tasks objects owners.now starts memory out }
{
    if !within(1, TASKS, tasks) {
        return TASK_RANGE;
    }
    if !within(1, OBJECTS, objects) {
        return OBJECT_RANGE;
    }
    if !within(least, FIELDS, fields) {
        return NO_FIELD;
    }
    if !entries_ok(fields, objects, owners.len(), starts, memory) {
        return ENTRIES;
    }
    if !owners_below(owners, tasks) {
        return OWNER_RANGE;
    }
    if out < head_length(fields, objects) {
        return NO_ROOM;
    }
    0
}

// Every cell of an object write-exclusive to the object's owner.
fn owned_cells(owners: &[u8], fields: usize) -> [CellRecord; CELLS]
    requires { (length owners.now ≤ max_objects) × (fields ≤ max_fields) }
    ensures { result ≡ owned_cells owners.now fields (cells_of fields (length owners.now)) }
{
    let blank = CellRecord {
        locality: Locality::WriteExclusive(0),
    };
    let mut cells = [blank; CELLS];
    let width = width_of(fields);
    for i in 0..cells_of(fields, owners.len()) {
        let object = i / width;
        let locality = Locality::WriteExclusive(owners[object] as u16);
        let record = CellRecord { locality };
        cells[i] = record;
    }
    cells
}

// Sets the lent memory to the starting values.
fn set_memory(memory: &mut [u32], starts: &[u32])
    requires { length memory.old ≡ length starts.now }
    ensures { memory.new ≡ starts.now }
{
    for (i, start) in starts.iter().enumerate() {
        memory[i] = *start;
    }
}

// The state of an opening with T, N, F and owners in range.
fn opened_state(tasks: usize, fields: usize, owners: &[u8]) -> State
    requires { (tasks ≤ max_tasks) × (length owners.now ≤ max_objects) × (fields ≤ max_fields) }
    ensures { result ≡ opened_state tasks (length owners.now) fields owners.now }
{
    let cells = owned_cells(owners, fields);
    State {
        tasks: tasks as u16,
        objects: owners.len() as u16,
        fields: fields as u16,
        cells,
        done: [0u16; TASKS],
        seen: [0u32; TASKS],
        took: [0u16; TASKS],
        shares: 0,
        last: Position { task: 0, number: 0 },
    }
}

// The code of both openings, which differ in the least number of fields that they take. As a function of its own it hands the state out by
// one copy more, and an opening takes 1.3 of its time.
#[inline(always)]
fn open_by(
    least: usize,
    fields: usize,
    tasks: usize,
    objects: usize,
    owners: &[u8],
    starts: &[u32],
    memory: &mut [u32],
    out: &mut [u8],
) -> Opened
    ensures value { result ≡ (open_by least fields tasks objects owners.now starts.now memory.old out.old).answer }
    ensures memory_after { memory.new ≡ (open_by least fields tasks objects owners.now starts.now memory.old out.old).memory }
    ensures out_after { out.new ≡ (open_by least fields tasks objects owners.now starts.now memory.old out.old).out }
{
    let number = open_number(
        least,
        fields,
        tasks,
        objects,
        owners,
        starts.len(),
        memory.len(),
        out.len(),
    );
    if number != 0 {
        let state = blank();
        return Opened {
            number,
            written: 0,
            state,
        };
    }
    set_memory(memory, starts);
    put_head(out, 0, fields, tasks as u16, owners, starts);
    let state = opened_state(tasks, fields, owners);
    Opened {
        number: 0,
        written: head_length(fields, objects),
        state,
    }
}

// Each object is one cell, and the head is of kind 1.
pub fn open(
    tasks: usize,
    objects: usize,
    owners: &[u8],
    starts: &[u32],
    memory: &mut [u32],
    out: &mut [u8],
) -> Opened
    ensures value { result ≡ (open_of tasks objects owners.now starts.now memory.old out.old).answer }
    ensures memory_after { memory.new ≡ (open_of tasks objects owners.now starts.now memory.old out.old).memory }
    ensures out_after { out.new ≡ (open_of tasks objects owners.now starts.now memory.old out.old).out }
{
    open_by(0, 0, tasks, objects, owners, starts, memory, out)
}

// Each object has F cells, 1 to 8, and the head is of kind 7 (document 02, F-6).
pub fn open_fields(
    tasks: usize,
    objects: usize,
    fields: usize,
    owners: &[u8],
    starts: &[u32],
    memory: &mut [u32],
    out: &mut [u8],
) -> Opened
    ensures value { result ≡ (open_fields_of tasks objects fields owners.now starts.now memory.old out.old).answer }
    ensures memory_after { memory.new ≡ (open_fields_of tasks objects fields owners.now starts.now memory.old out.old).memory }
    ensures out_after { out.new ≡ (open_fields_of tasks objects fields owners.now starts.now memory.old out.old).out }
{
    open_by(1, fields, tasks, objects, owners, starts, memory, out)
}
