// Whether two recordings are alike: both are played to where they end, always the lowest ready task, and the results are compared.
ghost use Rattle.std.specs.Prelude.{Ok, ◌≡◌, length};
ghost use Rattle.codec.specs.Cell.{cells_of};
ghost use Rattle.reader.specs.Layout.{layout_of};
ghost use Rattle.reader.specs.Parse.{parse};
ghost use Rattle.codec.specs.Reason.{number_of};
ghost use Rattle.playback.specs.Alike.{refused_compared, same_entries, alike_of, comparing, same_outcome_of};
ghost use Rattle.playback.specs.ToEnd.{play_of};

use crate::finish::Played;
use crate::to_end::play;
use codec::cell::cells_of;
use codec::number::Reason;
use reader::layout::{Layout, locate};

#[derive(Clone, Copy)]
pub struct Compared {
    pub number: u32,
    pub offset: usize,
    pub alike: bool,
}

fn refused(reason: Reason, offset: usize) -> Compared
    ensures { result ≡ refused_compared (number_of reason) offset }
{
    Compared {
        number: reason.number(),
        offset,
        alike: false,
    }
}

// Both have finished, with equal T, N and step count, and `memory` says whether their memories are equal.
fn alike(x: Played, y: Played, memory: bool) -> bool
    ensures { result ≡ alike_of x y memory }
{
    x.finished
        && y.finished
        && x.tasks == y.tasks
        && x.objects == y.objects
        && x.steps == y.steps
        && memory
}

// Plays both recordings, which have been checked, and compares the results.
fn compare(
    first: &[u8],
    second: &[u8],
    l: Layout,
    k: Layout,
    first_memory: &mut [u32],
    second_memory: &mut [u32],
) -> bool
    requires l_value { (Ok l ≡ layout_of (parse first.now)) × (length first_memory.old ≡ cells_of l.fields l.objects) }
    requires k_value { (Ok k ≡ layout_of (parse second.now)) × (length second_memory.old ≡ cells_of k.fields k.objects) }
    ensures value { result ≡ (comparing first.now second.now (play_of first.now first_memory.old) (play_of second.now second_memory.old)).answer.alike }
    ensures first_memory_after { first_memory.new ≡ (play_of first.now first_memory.old).memory }
    ensures second_memory_after { second_memory.new ≡ (play_of second.now second_memory.old).memory }
{
    let x = play(first, l, first_memory);
    let y = play(second, k, second_memory);
    let memory = &*first_memory == &*second_memory;
    alike(x, y, memory)
}

// Both byte strings and both lengths are checked before either memory is changed.
pub fn same_outcome(
    first: &[u8],
    second: &[u8],
    first_memory: &mut [u32],
    second_memory: &mut [u32],
) -> Compared
    ensures value { result ≡ (same_outcome_of first.now second.now first_memory.old second_memory.old).answer }
    ensures first_memory_after { first_memory.new ≡ (same_outcome_of first.now second.now first_memory.old second_memory.old).first }
    ensures second_memory_after { second_memory.new ≡ (same_outcome_of first.now second.now first_memory.old second_memory.old).second }
{
    let l = match locate(first) {
        Ok(l) => l,
        Err(refusal) => return refused(refusal.reason, refusal.offset),
    };
    let k = match locate(second) {
        Ok(k) => k,
        Err(refusal) => return refused(refusal.reason, refusal.offset),
    };
    if first_memory.len() != cells_of(l.fields, l.objects) {
        return refused(Reason::Entries, 0);
    }
    if second_memory.len() != cells_of(k.fields, k.objects) {
        return refused(Reason::Entries, 0);
    }
    Compared {
        number: 0,
        offset: 0,
        alike: compare(first, second, l, k, first_memory, second_memory),
    }
}
