// The options of a program that can be paused: --steps N, --done N0 N1 ..., --order FILE, each at most once, before the file.
#![tactic(auto)]

ghost use Rattle.std.specs.Prelude.{◌≡◌, ◌≤◌, ◌<◌, IfOk, IfSome, length, max};
ghost use Rattle.input.specs.Counts.{FitsIn};

use input::{Program, from_argument, from_rest, is_option, number_at, with_word, word_count};

// What `most` is if --steps is not given: more than any number that it takes.
// Kept: `pause::tell` takes a number of steps, and its theorems speak of one.
pub const ALL: usize = 4294967296;

// The most words that are taken: the program's own name and 64 arguments.
const MOST_WORDS: usize = 65;

// What the options ask for: the most steps, the counts, and the order if there is one.
#[derive(Clone, Copy)]
pub struct Pause<'b> {
    pub most: usize,
    pub counts: &'b [u32],
    pub order: Option<&'b [u8]>,
}

// The input and what was asked, if there were options.
#[derive(Clone, Copy)]
pub struct Asked<'b> {
    pub bytes: &'b [u8],
    pub pause: Option<Pause<'b>>,
}

// The arguments are not as the usage says.
#[derive(Clone, Copy)]
struct Misuse;

#[derive(Clone, Copy)]
enum Name {
    Steps,
    Done,
    Order,
}

// What the options say: the number of --steps, the argument with the first count and the one with the order's name. `next` is the argument
// after them.
#[derive(Clone, Copy)]
struct Options {
    next: usize,
    steps: Option<u32>,
    done: Option<usize>,
    order: Option<usize>,
}

// The option that an argument is, if it is one.
fn name_at(rt: HostRuntime, at: usize) -> Option<Name> {
    with_word(rt, at, |word| match word {
        b"--steps" => Some(Name::Steps),
        b"--done" => Some(Name::Done),
        b"--order" => Some(Name::Order),
        _ => None,
    })
}

// Whether an argument is standard input.
fn is_standard(rt: HostRuntime, at: usize) -> bool {
    with_word(rt, at, |word| word == b"-".as_slice())
}

// Whether an argument can name a file: `-` is standard input, and any other word that begins with it is an option.
fn is_file(rt: HostRuntime, at: usize) -> bool {
    is_standard(rt, at) || with_word(rt, at, |word| !is_option(word))
}

// The first argument from `from` on that is not a number.
fn past_numbers(rt: HostRuntime, from: usize, words: usize) -> usize
    requires { from ≤ words }
    ensures { (from ≤ result) × (result ≤ words) }
{
    (from..words)
        .find(|at| number_at(rt, *at).is_none())
        .unwrap_or(words)
}

// --steps and a number.
fn take_steps(rt: HostRuntime, o: Options, words: usize) -> Result<Options, Misuse>
    requires { o.next < words }
    ensures { IfOk result (λ more. (o.next < more.next) × (more.next ≤ words)) }
{
    let at = o.next + 1;
    if o.steps.is_some() || words <= at {
        return Err(Misuse);
    }
    let steps = Some(number_at(rt, at).ok_or(Misuse)?);
    let next = at + 1;
    Ok(Options { next, steps, ..o })
}

// --done and one count or more.
fn take_done(rt: HostRuntime, o: Options, words: usize) -> Result<Options, Misuse>
    requires { o.next < words }
    ensures { IfOk result (λ more. (o.next < more.next) × (more.next ≤ words)) }
{
    let at = o.next + 1;
    let next = past_numbers(rt, at, words);
    if o.done.is_some() || next == at {
        return Err(Misuse);
    }
    let done = Some(at);
    Ok(Options { next, done, ..o })
}

// --order and a file's name.
fn take_order(rt: HostRuntime, o: Options, words: usize) -> Result<Options, Misuse>
    requires { o.next < words }
    ensures { IfOk result (λ more. (o.next < more.next) × (more.next ≤ words)) }
{
    let at = o.next + 1;
    if o.order.is_some() || words <= at || !is_file(rt, at) {
        return Err(Misuse);
    }
    let next = at + 1;
    let order = Some(at);
    Ok(Options { next, order, ..o })
}

// One option more, unless the next argument is none.
fn take_option(rt: HostRuntime, o: Options, words: usize) -> Result<Option<Options>, Misuse>
    ensures { IfOk result (λ taken. IfSome taken (λ more. (o.next < words) × (o.next < more.next) × (more.next ≤ words))) }
{
    if words <= o.next {
        return Ok(None);
    }
    let Some(name) = name_at(rt, o.next) else {
        return Ok(None);
    };
    let more = match name {
        Name::Steps => take_steps(rt, o, words)?,
        Name::Done => take_done(rt, o, words)?,
        Name::Order => take_order(rt, o, words)?,
    };
    Ok(Some(more))
}

// All options, up to the first argument that is none.
fn take_options(rt: HostRuntime, words: usize) -> Result<Options, Misuse>
    ensures { IfOk result (λ o. o.next ≤ max 1 words) }
{
    let mut o = Options {
        next: 1,
        steps: None,
        done: None,
        order: None,
    };
    while let Some(more) = take_option(rt, o, words)? {
        o = more;
    }
    Ok(o)
}

// Whether the order and the recording would both be standard input.
fn is_shared(rt: HostRuntime, o: Options, words: usize) -> bool {
    let next = o.next;
    match o.order {
        Some(order) => is_standard(rt, order) && (words <= next || is_standard(rt, next)),
        None => false,
    }
}

// The options, if all arguments are as the usage says.
fn options_of(rt: HostRuntime, words: usize) -> Result<Options, Misuse> {
    let o = take_options(rt, words)?;
    if MOST_WORDS < words || is_shared(rt, o, words) {
        return Err(Misuse);
    }
    Ok(o)
}

// Puts the counts from an argument on at the front, as far as there is room for them.
fn put_counts<'b>(rt: HostRuntime, from: usize, words: usize, counts: &'b mut [u32]) -> &'b [u32]
    ensures { length result.now ≤ length counts.old }
{
    let mut n = 0;
    for at in from..words {
        let Some(count) = number_at(rt, at) else {
            break;
        };
        if counts.len() <= n {
            break;
        }
        counts[n] = count;
        n += 1;
    }
    &counts[..n]
}

// What the options ask for. The order is read from the file that its argument names.
fn read_pause<'b>(
    rt: HostRuntime,
    o: Options,
    words: usize,
    program: Program,
    counts: &'b mut [u32],
    order: &'b mut [u8],
) -> Option<Pause<'b>>
    ensures counts_bound { IfSome result (λ pause. length pause.counts.now ≤ length counts.old) }
    ensures order_bound { IfSome result (λ pause. FitsIn pause.order order.old) }
    ensures most_bound { IfSome result (λ pause. pause.most ≤ 4294967296) }
{
    let order = match o.order {
        Some(at) => Some(from_argument(rt, at, program, order)?),
        None => None,
    };
    let counts = match o.done {
        Some(from) => put_counts(rt, from, words, counts),
        None => &counts[..0],
    };
    let most = o.steps.map_or(ALL, |steps| steps as usize);
    Some(Pause {
        most,
        counts,
        order,
    })
}

// The same as `input::from_arguments` for a program that takes these options before the file. The recording is read first: if it cannot be
// read, or --help stands for it, the order is left alone.
pub fn with_pause<'b>(
    rt: HostRuntime,
    program: Program,
    buffer: &'b mut [u8],
    counts: &'b mut [u32],
    order: &'b mut [u8],
) -> Option<Asked<'b>>
    ensures bytes_bound { IfSome result (λ asked. length asked.bytes.now ≤ length buffer.old) }
    ensures counts_bound { IfSome result (λ asked. IfSome asked.pause (λ pause. length pause.counts.now ≤ length counts.old)) }
    ensures order_bound { IfSome result (λ asked. IfSome asked.pause (λ pause. FitsIn pause.order order.old)) }
    ensures most_bound { IfSome result (λ asked. IfSome asked.pause (λ pause. pause.most ≤ 4294967296)) }
{
    let words = word_count(rt);
    let Ok(o) = options_of(rt, words) else {
        program.put_usage(&rt.stderr());
        return None;
    };
    let bytes = from_rest(rt, o.next, program, buffer)?;
    if o.next == 1 {
        return Some(Asked { bytes, pause: None });
    }
    let expected = b"an order";
    let program = Program {
        expected,
        ..program
    };
    let pause = Some(read_pause(rt, o, words, program, counts, order)?);
    Some(Asked { bytes, pause })
}
