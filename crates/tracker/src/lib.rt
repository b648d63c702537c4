// The recorder's state. How the transition table of document 01 changes it is defined in specs/, and proved there to make sound
// histories; the code is in the crate above, `transitions`.

#![tactic(auto)]

use codec::Position;
use codec::limit::{CELLS, TASKS};

// Who holds a cell: one task for writing, one for reading, or every task by a share number.
// Document 01: write-held by S, read-held by S, shared c.
#[derive(Clone, Copy)]
pub enum Locality {
    WriteExclusive(u16),
    ReadExclusive(u16),
    ReadShared(u32),
}

// What is kept for a cell. Document 01: each object's record holds its state; with fields (document 02, F-6) each field of an object has
// its own.
#[derive(Clone, Copy)]
pub struct CellRecord {
    pub locality: Locality,
}

// The recorder's state. Document 01: T, N, the cells' records, Done, Seen, Took, G, Last. If Last's number is 0 there is no Last.
// `fields` is 0 under head 1, where each object is one cell, else F under head 7 (document 02, F-6). Entries from T or N times F on have
// no meaning.
#[derive(Clone, Copy)]
pub struct State {
    pub tasks: u16,
    pub objects: u16,
    pub fields: u16,
    pub cells: [CellRecord; CELLS],
    pub done: [u16; TASKS],
    pub seen: [u32; TASKS],
    pub took: [u16; TASKS],
    pub shares: u32,
    pub last: Position,
}

// A state without its cells' records: an access can pass this by value cheaply.
#[derive(Clone, Copy)]
pub struct Counters {
    pub tasks: u16,
    pub objects: u16,
    pub fields: u16,
    pub done: [u16; TASKS],
    pub seen: [u32; TASKS],
    pub took: [u16; TASKS],
    pub shares: u32,
    pub last: Position,
}

// The rows of the transition table.
#[derive(Clone, Copy)]
pub enum Row {
    One,
    Two,
    Three,
    Four,
    Five,
    Six,
    Seven,
    Eight,
    Nine,
    Ten,
}

// An access by the table: its row's number, the cell and the task's entries after it, and its orderings. A missing ordering has number
// 0. Row 10 orders after every other task and leaves these two empty.
#[derive(Clone, Copy)]
pub struct Plan {
    pub row: u8,
    pub locality: Locality,
    pub seen: u32,
    pub took: u16,
    pub shares: u32,
    pub last: Position,
    pub first: Position,
    pub second: Position,
}
