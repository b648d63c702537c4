// The transition table and the soundness test of document 01 as code.

#![tactic(auto)]

ghost use Rattle.std.specs.Prelude.{◌≡◌};
ghost use Rattle.tracker.specs.Laws.Counters.{counters_of};
ghost use Rattle.tracker.specs.State.{blank_state};

use codec::Position;
use codec::limit::{CELLS, TASKS};
use tracker::{CellRecord, Counters, Locality, State};

pub mod advance;
pub mod sound;
pub mod table;

// Document 01: the blank state, all zero.
pub fn blank() -> State
    ensures { result ≡ blank_state }
{
    let record = CellRecord {
        locality: Locality::WriteExclusive(0),
    };
    State {
        tasks: 0,
        objects: 0,
        fields: 0,
        cells: [record; CELLS],
        done: [0u16; TASKS],
        seen: [0u32; TASKS],
        took: [0u16; TASKS],
        shares: 0,
        last: Position { task: 0, number: 0 },
    }
}

// All of a state but its cells' records.
pub fn counters_of(state: &State) -> Counters
    ensures { result ≡ counters_of state.now }
{
    Counters {
        tasks: state.tasks,
        objects: state.objects,
        fields: state.fields,
        done: state.done,
        seen: state.seen,
        took: state.took,
        shares: state.shares,
        last: state.last,
    }
}
