// A list of steps followed, with a line for each that is taken or refused.

#![tactic(auto)]

ghost use Rattle.std.specs.Prelude.{◌||◌, ◌≡◌, ◌+◌, ◌<◌, ◌≤◌, leb, length};
ghost use Rattle.codec.specs.Limit.{max_tasks};
ghost use Rattle.follow.specs.Follow.{is_passed, tried_of, followed_of};
ghost use Rattle.follow.specs.Laws.Follow.{next_by, Stands};
ghost use Rattle.follow.specs.Within.{all_there};

use crate::within::{all_there, is_there};
use codec::number::{FINISHED, HELD, NO_TASK};
use entries::Checked;
use pending::Run;
use replay_lines::block::put_turned;
use replay_lines::put_step;
use replayer::step;

pub mod within;

// The run after the steps, the number of steps taken, the offset after their lines, and the number and offset of the step that stopped
// it, 0 and 0 if none did.
#[derive(Clone, Copy)]
pub struct Stood {
    pub run: Run,
    pub steps: usize,
    pub at: usize,
    pub stopped: Checked,
}

// Nothing stops it.
const ON: Checked = Checked {
    number: 0,
    offset: 0,
};

// Whether a refused step is passed: no such task, nothing left for it, held.
fn is_passed(number: u32) -> bool
    ensures { result ≡ is_passed number }
{
    number == NO_TASK || number == FINISHED || number == HELD
}

// One step: its line if it is taken, `refused` and its number if it is passed.
fn put_tried(
    bytes: &[u8],
    run: Run,
    steps: usize,
    memory: &mut [u32],
    task: usize,
    out: &mut [u8],
    at: usize,
) -> Stood
    requires { (steps < 4294967296) × (at + length (tried_of bytes.now (record { run = run; memory = memory.old; steps = steps }) task).text ≤ length out.old) }
    ensures { Stands (tried_of bytes.now (record { run = run; memory = memory.old; steps = steps }) task) out.old at (record { run = result.run; memory = memory.new; steps = result.steps }) result.stopped out.new result.at }
{
    let s = step(run, bytes, memory, task);
    if s.number == 0 {
        let end = put_step(out, at, task, s);
        return Stood {
            run: s.run,
            steps: steps + 1,
            at: end,
            stopped: ON,
        };
    }
    if is_passed(s.number) {
        let end = put_turned(out, at, task, s.number);
        return Stood {
            run,
            steps,
            at: end,
            stopped: ON,
        };
    }
    let stopped = Checked {
        number: s.number,
        offset: s.offset,
    };
    Stood {
        run,
        steps,
        at,
        stopped,
    }
}

// One step of a list. A step of a task that is at its count is left out.
fn put_next(
    bytes: &[u8],
    run: Run,
    steps: usize,
    memory: &mut [u32],
    counts: &[u32],
    task: usize,
    out: &mut [u8],
    at: usize,
) -> Stood
    requires { (steps < 4294967296) × (length counts.now ≤ max_tasks) × (at + length (next_by bytes.now counts.now (record { run = run; memory = memory.old; steps = steps }) task).text ≤ length out.old) }
    ensures { Stands (next_by bytes.now counts.now (record { run = run; memory = memory.old; steps = steps }) task) out.old at (record { run = result.run; memory = memory.new; steps = result.steps }) result.stopped out.new result.at }
{
    if is_there(run, counts, task) {
        return Stood {
            run,
            steps,
            at,
            stopped: ON,
        };
    }
    put_tried(bytes, run, steps, memory, task, out, at)
}

// Whether it stops here: as many steps are taken as were asked for, or all tasks are at their counts.
fn is_over(run: Run, steps: usize, most: usize, counts: &[u32]) -> bool
    requires { length counts.now ≤ max_tasks }
    ensures { result ≡ (leb most steps || all_there counts.now run) }
{
    most <= steps || all_there(run, counts)
}

// The steps of a list, from the start of the output.
pub fn put_followed(
    bytes: &[u8],
    start: Run,
    memory: &mut [u32],
    most: usize,
    counts: &[u32],
    steps: &[u32],
    out: &mut [u8],
) -> Stood
    requires counts_len_bound { (length counts.now ≤ max_tasks) × (length steps.now ≤ 32768) }
    requires steps_in_bounds { length (followed_of bytes.now most counts.now (record { run = start; memory = memory.old; steps = 0 }) steps.now).text ≤ length out.old }
    ensures { Stands (followed_of bytes.now most counts.now (record { run = start; memory = memory.old; steps = 0 }) steps.now) out.old 0 (record { run = result.run; memory = memory.new; steps = result.steps }) result.stopped out.new result.at }
{
    let mut p = Stood {
        run: start,
        steps: 0,
        at: 0,
        stopped: ON,
    };
    for step in steps {
        if is_over(p.run, p.steps, most, counts) {
            return p;
        }
        let task = *step as usize;
        p = put_next(bytes, p.run, p.steps, memory, counts, task, out, p.at);
        if p.stopped.number != 0 {
            return p;
        }
    }
    p
}
