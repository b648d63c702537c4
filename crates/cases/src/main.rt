// Plays the recordings of data/ and compares the output: runs that no theorem covers, among them two that get stuck. Each is also paused
// after two steps, and played by an order of which some steps are refused.
#![tactic(auto)]

use input::{from_file, with_word, word_count};
use options::ALL;
use waits::MOST_WAITS;

// Writes to standard output.
fn put(rt: HostRuntime, text: &[u8]) {
    let _ = rt.stdout().write_all(text);
}

// Writes what the replay program writes on both streams for a recording without options. Its buffers must not become part of the frame of
// `play_file`, on which those of a paused play come.
#[inline(never)]
fn play(rt: HostRuntime, bytes: &[u8]) {
    let mut out = transcript::space();
    let mut why = [0u8; MOST_WAITS];
    let told = transcript::tell(bytes, &mut out, &mut why);
    put(rt, &out[..told.text]);
    put(rt, &why[..told.reasons]);
}

// The same with --steps, and with --order if there is one.
fn play_paused(rt: HostRuntime, bytes: &[u8], most: usize, order: Option<&[u8]>) {
    let mut out = pause::space();
    let mut why = [0u8; MOST_WAITS];
    let told = pause::tell(bytes, most, &[], order, &mut out, &mut why);
    put(rt, &out[..told.text]);
    put(rt, &why[..told.reasons]);
}

// Writes a recording's name and then what the replay program writes for it.
fn play_file(rt: HostRuntime, path: &[u8]) {
    let mut bytes = [0u8; 65537];
    let Some(bytes) = from_file(rt, b"cases", path, &mut bytes) else {
        return;
    };
    put(rt, path);
    put(rt, b"\n");
    play(rt, bytes);
    put(rt, b"--steps 2\n");
    play_paused(rt, bytes, 2, None);
    put(rt, b"--order\n");
    play_paused(rt, bytes, ALL, Some(b"1\n0\n7\n0\n1\n0\n"));
}

fn main(rt: HostRuntime) {
    for i in 1..word_count(rt) {
        with_word(rt, i, |path| play_file(rt, path));
    }
}
