// An access by the transition table: `decide` chooses what it does; the recorder does it.
ghost use Rattle.std.specs.Prelude.{◌≡◌, ◌+◌, ◌<◌, ◌^◌};
ghost use Rattle.tracker.specs.State.{holder_of};
ghost use Rattle.transitions.specs.Laws.ByRow.{plain_plan, share_plan, fence_plan, hold_plan, plan_by};
ghost use Rattle.tracker.specs.Laws.Plan.{Admits, plan_for};

use crate::table::row_of;
use codec::Position;
use tracker::{Counters, Locality, Plan, Row};

// What a row can change besides the cell, as it was before the access: Seen and Took of its task, G and Last; `here` is (T2, k).
#[derive(Clone, Copy)]
struct Kept {
    here: Position,
    seen: u32,
    took: u16,
    shares: u32,
    last: Position,
}

// The task that holds a cell alone, 0 for a shared one.
pub fn holder_of(locality: Locality) -> u16
    ensures { result ≡ holder_of locality }
{
    match locality {
        Locality::WriteExclusive(holder) => holder,
        Locality::ReadExclusive(holder) => holder,
        Locality::ReadShared(_) => 0,
    }
}

// A row that changes only the cell: all except 5, 6 and 8.
fn plain(row: u8, locality: Locality, kept: Kept, first: Position) -> Plan
    ensures { result ≡ plain_plan row locality kept first }
{
    let last = kept.last;
    let second = Position { task: 0, number: 0 };
    Plan {
        row,
        locality,
        seen: kept.seen,
        took: kept.took,
        shares: kept.shares,
        last,
        first,
        second,
    }
}

// Row 5: the read makes the next share, and the task has seen it.
fn share(kept: Kept, first: Position) -> Plan
    requires { kept.shares + 1 < 2 ^ 32 }
    ensures { result ≡ share_plan kept first }
{
    let shares = kept.shares + 1;
    let locality = Locality::ReadShared(shares);
    let last = kept.here;
    let second = kept.last;
    Plan {
        row: 5,
        locality,
        seen: shares,
        took: kept.took,
        shares,
        last,
        first,
        second,
    }
}

// Row 6: the read is ordered after the access that made the newest share, so the task has now seen every share.
fn fence(locality: Locality, kept: Kept) -> Plan
    ensures { result ≡ fence_plan locality kept }
{
    let last = kept.last;
    let second = Position { task: 0, number: 0 };
    Plan {
        row: 6,
        locality,
        seen: kept.shares,
        took: kept.took,
        shares: kept.shares,
        last,
        first: last,
        second,
    }
}

// Row 8: the task takes the cell for reading, by this access.
fn hold(kept: Kept, first: Position) -> Plan
    ensures { result ≡ hold_plan kept first }
{
    let here = kept.here;
    let locality = Locality::ReadExclusive(here.task);
    let last = kept.last;
    let second = Position { task: 0, number: 0 };
    Plan {
        row: 8,
        locality,
        seen: kept.seen,
        took: here.number,
        shares: kept.shares,
        last,
        first,
        second,
    }
}

// An access by its row: `done` is (T1, Done(T1)), and `took` is (T1, Took(T1)).
fn by_row(row: Row, locality: Locality, kept: Kept, done: Position, took: Position) -> Plan
    requires { kept.shares + 1 < 2 ^ 32 }
    ensures { result ≡ plan_by row locality kept done took }
{
    let here = kept.here;
    let mine = Locality::WriteExclusive(here.task);
    let none = Position { task: 0, number: 0 };
    match row {
        Row::One => plain(1, locality, kept, none),
        Row::Two => plain(2, locality, kept, none),
        Row::Three => plain(3, locality, kept, none),
        Row::Four => plain(4, mine, kept, none),
        Row::Five => share(kept, took),
        Row::Six => fence(locality, kept),
        Row::Seven => plain(7, mine, kept, done),
        Row::Eight => hold(kept, done),
        Row::Nine => plain(9, mine, kept, done),
        Row::Ten => plain(10, mine, kept, none),
    }
}

// What an access to a cell in `locality` does, by the table.
pub fn decide(counters: Counters, locality: Locality, task: usize, write: bool) -> Plan
    requires { Admits counters locality task }
    ensures { result ≡ plan_for counters locality task write }
{
    let me = task as u16;
    let here = Position {
        task: me,
        number: counters.done[task] + 1,
    };
    let seen = counters.seen[task];
    let last = counters.last;
    let kept = Kept {
        here,
        seen,
        took: counters.took[task],
        shares: counters.shares,
        last,
    };
    let holder = holder_of(locality);
    let other = holder as usize;
    let done = Position {
        task: holder,
        number: counters.done[other],
    };
    let took = Position {
        task: holder,
        number: counters.took[other],
    };
    let row = row_of(locality, me, seen, write);
    by_row(row, locality, kept, done, took)
}
