// Many calls in one, for the benchmark: each returns a digest of everything its calls answered, so that none can be left out. This is a
// library of its own in which an access and a step are each called in one place, as in a program: if they were called in two, the
// compiler would not inline the call, and an access would copy the state once more.

#![tactic(auto)]

ghost use Rattle.std.specs.Prelude.{◌≡◌, ◌<◌};
ghost use Rattle.timed.specs.Digest.{mixed_in, access_word, step_word};
ghost use Rattle.timed.specs.ReplayOf.{replay_of};
ghost use Rattle.timed.specs.ScriptOf.{opening, script_of};

use opening::Opened;
use replayer::{lowest_ready, ready};

fn mixed(digest: u64, x: u64) -> u64
    requires { x < 288230376151711744 }
    ensures { result ≡ mixed_in digest x }
{
    31 * (digest % 288230376151711744) + x
}

fn access_word(number: u32, value: u32, row: u8, class: u8, written: usize) -> u64
    ensures { (result ≡ access_word number value row class written) × (result < 288230376151711744) }
{
    let above = (row as u64)
        + 16 * (class as u64)
        + 8192 * (number as u64 % 32)
        + 262144 * (written as u64 % 256);
    (value as u64) + 4294967296 * above
}

fn step_word(task: usize, kind: u16, object: usize, field: usize, value: u32, access: usize) -> u64
    ensures { (result ≡ step_word task kind object field value access) × (result < 288230376151711744) }
{
    let above = (task as u64 % 16)
        + 16 * (kind as u64 % 16)
        + 256 * (object as u64 % 256)
        + 65536 * (field as u64 % 8)
        + 524288 * (access as u64 % 128);
    (value as u64) + 4294967296 * above
}

// The old opening for 0 fields.
fn opened(
    tasks: usize,
    objects: usize,
    fields: usize,
    owners: &[u8],
    starts: &[u32],
    memory: &mut [u32],
    out: &mut [u8],
) -> Opened
    ensures value { result ≡ (opening tasks objects fields owners.now starts.now memory.old out.old).answer }
    ensures memory_after { memory.new ≡ (opening tasks objects fields owners.now starts.now memory.old out.old).memory }
    ensures out_after { out.new ≡ (opening tasks objects fields owners.now starts.now memory.old out.old).out }
{
    if fields == 0 {
        return opening::open(tasks, objects, owners, starts, memory, out);
    }
    opening::open_fields(tasks, objects, fields, owners, starts, memory, out)
}

// Opens a recording and runs a script of accesses on it, five numbers each: task, object, field, sort, value. All write to the same
// output.
#[unsafe(no_mangle)]
pub extern "C" fn wk_script(
    tasks: usize,
    objects: usize,
    fields: usize,
    owners: &[u8],
    starts: &[u32],
    script: &[u32],
    memory: &mut [u32],
    out: &mut [u8],
) -> u64
    ensures value { result ≡ (script_of tasks objects fields owners.now starts.now script.now memory.old out.old).digest }
    ensures memory_after { memory.new ≡ (script_of tasks objects fields owners.now starts.now script.now memory.old out.old).memory }
    ensures out_after { out.new ≡ (script_of tasks objects fields owners.now starts.now script.now memory.old out.old).out }
{
    let o = opened(tasks, objects, fields, owners, starts, memory, out);
    let mut state = o.state;
    let mut digest: u64 = 0;
    // Kept: by `chunks_exact` an access with many objects takes a tenth longer.
    for i in 0..script.len() / 5 {
        let at = 5 * i;
        let a = recorder::access(
            state,
            script[at] as usize,
            script[at + 1] as usize,
            script[at + 2] as usize,
            script[at + 3],
            script[at + 4],
            memory,
            out,
        );
        digest = mixed(
            digest,
            access_word(a.number, a.value, a.row, a.class, a.written),
        );
        state = a.state;
    }
    digest
}

// Opens a recording and steps it, always the lowest ready task, until a step is not taken: none is ready, or the memory differs from a
// read's record. A step uses up a record, so as many steps as there are bytes are enough. Whether it was taken is asked by the access,
// which is 0 in every refusal: a refusal's number may come from the bytes, and for the case that it is 0 the compiler would keep a copy
// of the run.
#[unsafe(no_mangle)]
pub extern "C" fn wk_replay(bytes: &[u8], memory: &mut [u32]) -> u64
    ensures value { result ≡ (replay_of bytes.now memory.old).digest }
    ensures memory_after { memory.new ≡ (replay_of bytes.now memory.old).memory }
{
    let opened = replayer::open(bytes, memory);
    let mut run = opened.run;
    let mut digest: u64 = opened.number as u64;
    for _ in 0..bytes.len() {
        let w = ready(run, bytes);
        let task = lowest_ready(w.word) as usize;
        let s = replayer::step(run, bytes, memory, task);
        if s.access == 0 {
            return digest;
        }
        digest = mixed(
            digest,
            step_word(task, s.kind, s.object, s.field, s.value, s.access),
        );
        run = s.run;
    }
    digest
}
