// The lines of a replay that can be paused: a step that was not taken, and the state where it pauses.
ghost use Rattle.std.specs.Prelude.{◌≡◌, ◌+◌, ◌≤◌, length, take};
ghost use Rattle.codec.specs.Limit.{max_tasks};
ghost use Rattle.text.specs.Appended.{Appended};
ghost use Rattle.replay_lines.specs.Block.{turned_line, row_of, ready_tasks, paused_line, done_line, ready_line, block_of};

use crate::put_values;
use codec::limit::TASKS;
use pending::Run;
use pending::next::dones_of;
use text::{put_byte, put_bytes, put_field, put_number};

// The task, `refused` and the number of a step that was not taken.
pub fn put_turned(out: &mut [u8], at: usize, task: usize, number: u32) -> usize
    requires { at + length (turned_line task number) ≤ length out.old }
    ensures { Appended (turned_line task number) out.old at out.new result }
{
    let a = put_field(out, at, task as u64, b' ');
    let b = put_bytes(out, a, b"refused ");
    put_field(out, b, number as u64, b'\n')
}

// Words, and numbers each after a space.
fn put_row(out: &mut [u8], at: usize, words: &[u8], numbers: &[usize]) -> usize
    requires { at + length (row_of words.now numbers.now) ≤ length out.old }
    ensures { Appended (row_of words.now numbers.now) out.old at out.new result }
{
    let mut end = put_bytes(out, at, words);
    for i in 0..numbers.len() {
        end = put_byte(out, end, b' ');
        end = put_number(out, end, numbers[i] as u64);
    }
    put_byte(out, end, b'\n')
}

// The tasks of a ready word, from the start of the array. Returns how many.
fn ready_tasks(word: u16, tasks: &mut [usize; TASKS]) -> usize
    requires { length tasks.old ≡ max_tasks }
    ensures { (result ≤ length tasks.new) × (take result tasks.new ≡ ready_tasks word) }
{
    let mut w = word;
    let mut n = 0;
    for t in 0..TASKS {
        if w % 2 == 1 {
            tasks[n] = t;
            n += 1;
        }
        w = w / 2;
    }
    n
}

fn put_paused(out: &mut [u8], at: usize, steps: usize) -> usize
    requires { at + length (paused_line steps) ≤ length out.old }
    ensures { Appended (paused_line steps) out.old at out.new result }
{
    let end = put_bytes(out, at, b"paused ");
    put_field(out, end, steps as u64, b'\n')
}

// `done` with each task's accesses.
fn put_done(out: &mut [u8], at: usize, run: Run) -> usize
    requires { (run.tasks ≤ max_tasks) × (at + length (done_line run) ≤ length out.old) }
    ensures { Appended (done_line run) out.old at out.new result }
{
    let dones = dones_of(run);
    let tasks = run.tasks;
    put_row(out, at, b"done", &dones[..tasks])
}

// `ready` with the ready tasks.
fn put_ready(out: &mut [u8], at: usize, word: u16) -> usize
    requires { at + length (ready_line word) ≤ length out.old }
    ensures { Appended (ready_line word) out.old at out.new result }
{
    let mut tasks = [0usize; TASKS];
    let n = ready_tasks(word, &mut tasks);
    put_row(out, at, b"ready", &tasks[..n])
}

// `paused` with the steps, `done` with each task's accesses, `ready` with the ready tasks, and the memory.
pub fn put_block(
    out: &mut [u8],
    at: usize,
    steps: usize,
    run: Run,
    word: u16,
    memory: &[u32],
) -> usize
    requires { (run.tasks ≤ max_tasks) × (at + length (block_of steps run word memory.now) ≤ length out.old) }
    ensures { Appended (block_of steps run word memory.now) out.old at out.new result }
{
    let a = put_paused(out, at, steps);
    let b = put_done(out, a, run);
    let c = put_ready(out, b, word);
    put_values(out, c, memory)
}
