// A recording played to its end in one call: opened, then the lowest ready task is stepped until a step is not taken.
ghost use Rattle.std.specs.Prelude.{Ok, ◌≡◌, length};
ghost use Rattle.codec.specs.Cell.{cells_of};
ghost use Rattle.reader.specs.Layout.{layout_of};
ghost use Rattle.reader.specs.Parse.{parse};
ghost use Rattle.playback.specs.Shown.{shown_play};
ghost use Rattle.codec.specs.Reason.{number_of};
ghost use Rattle.playback.specs.ToEnd.{play_of, refused_end, to_end_of};

use crate::finish::{Played, finish};
use codec::cell::cells_of;
use codec::number::Reason;
use entries::Checked;
use reader::head::set_starting;
use reader::layout::{Layout, locate};
use replayer::start::started;

// As in `Played`: a run that has neither finished nor been stopped is stuck.
#[derive(Clone, Copy)]
pub struct Replayed {
    pub number: u32,
    pub offset: usize,
    pub steps: usize,
    pub finished: bool,
    pub stopped: Checked,
}

fn refused(reason: Reason, offset: usize) -> Replayed
    ensures { result ≡ refused_end (number_of reason) offset }
{
    Replayed {
        number: reason.number(),
        offset,
        steps: 0,
        finished: false,
        stopped: Checked {
            number: 0,
            offset: 0,
        },
    }
}

// Plays a checked recording from its opening to where it ends.
pub(crate) fn play(bytes: &[u8], l: Layout, memory: &mut [u32]) -> Played
    requires { (Ok l ≡ layout_of (parse bytes.now)) × (length memory.old ≡ cells_of l.fields l.objects) }
    ensures value { result ≡ shown_play bytes.now (play_of bytes.now memory.old) }
    ensures memory_after { memory.new ≡ (play_of bytes.now memory.old).memory }
{
    set_starting(bytes, l.fields, l.objects, memory);
    let run = started(l);
    finish(run, bytes, memory)
}

// A refusal is the one of opening, and leaves the memory as it was.
pub fn replay_to_end(bytes: &[u8], memory: &mut [u32]) -> Replayed
    ensures value { result ≡ (to_end_of bytes.now memory.old).answer }
    ensures memory_after { memory.new ≡ (to_end_of bytes.now memory.old).memory }
{
    let l = match locate(bytes) {
        Ok(l) => l,
        Err(refusal) => return refused(refusal.reason, refusal.offset),
    };
    if memory.len() != cells_of(l.fields, l.objects) {
        return refused(Reason::Entries, 0);
    }
    let p = play(bytes, l, memory);
    let stopped = p.stopped;
    Replayed {
        number: 0,
        offset: 0,
        steps: p.steps,
        finished: p.finished,
        stopped,
    }
}
