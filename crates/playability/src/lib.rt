// Whether a recording can be played to its end, and in which order (document 02, F-2). Values play no part: no memory is lent.

#![tactic(auto)]

ghost use Rattle.std.specs.Prelude.{◌≡◌};
ghost use Rattle.codec.specs.Reason.{number_of};
ghost use Rattle.playability.specs.PlayableOf.{refused_playable, playable_of};
ghost use Rattle.playability.specs.Settle.{settle_of};

use crate::hold::hold_of;
use crate::settle::{Settled, settle};
use codec::number::Reason;
use entries::Refusal;
use scheduler::schedule::schedule;

pub mod hold;
pub mod settle;

// The number; the offset of the record that is refused or, with 18, of the ordering that is not met; with 18 the task that is held; the
// steps of the order.
#[derive(Clone, Copy, Debug, PartialEq, Eq)]
pub struct Playability {
    pub number: u32,
    pub offset: usize,
    pub task: usize,
    pub steps: usize,
}

fn refused(reason: Reason, offset: usize, task: usize) -> Playability
    ensures { result ≡ refused_playable (number_of reason) offset task }
{
    Playability {
        number: reason.number(),
        offset,
        task,
        steps: 0,
    }
}

// The order is written from the start of the output, one byte for each step, always the lowest ready task next. It is played once before
// anything is written, because a refusal leaves the output as it was; where that play stops is given, so that a caller who needs it too
// need not have the bytes checked again.
pub fn playable_settled(
    settled: Result<Settled, Refusal>,
    bytes: &[u8],
    out: &mut [u8],
) -> Playability
    requires { settled ≡ settle_of bytes.now }
    ensures value { result ≡ (playable_of bytes.now out.old).answer }
    ensures out_after { out.new ≡ (playable_of bytes.now out.old).out }
{
    let s = match settled {
        Ok(s) => s,
        Err(refusal) => return refused(refusal.reason, refusal.offset, 0),
    };
    if let Some(held) = hold_of(s.run, bytes) {
        return refused(Reason::NoOrder, held.offset, held.task);
    }
    if out.len() < s.steps {
        return refused(Reason::NoRoom, 0, 0);
    }
    let start = s.start;
    let steps = schedule(start, bytes, out);
    Playability {
        number: 0,
        offset: 0,
        task: 0,
        steps,
    }
}

// Whether a recording can be played to its end, and the order.
pub fn playable(bytes: &[u8], out: &mut [u8]) -> Playability
    ensures value { result ≡ (playable_of bytes.now out.old).answer }
    ensures out_after { out.new ≡ (playable_of bytes.now out.old).out }
{
    playable_settled(settle(bytes), bytes, out)
}
