// A word as a message shows it.
ghost use Rattle.std.specs.Prelude.{map, ◌≡◌, ◌+◌, ◌≤◌, length};
ghost use Rattle.text.specs.Appended.{Appended};
ghost use Rattle.faults.specs.Shown.{shown_byte, shown_of};

use text::put_bytes;

// A byte that is not a visible character is shown as ?.
fn shown_byte(byte: u8) -> u8
    ensures { result ≡ shown_byte byte }
{
    if byte.is_ascii_graphic() { byte } else { b'?' }
}

fn put_shown_bytes(out: &mut [u8], at: usize, word: &[u8]) -> usize
    requires { at + length word.now ≤ length out.old }
    ensures { Appended (map shown_byte word.now) out.old at out.new result }
{
    for (i, byte) in word.iter().enumerate() {
        out[at + i] = shown_byte(*byte);
    }
    at + word.len()
}

// At most 20 bytes of a word, then ... if it is longer.
pub(crate) fn put_shown(out: &mut [u8], at: usize, word: &[u8]) -> usize
    requires { at + 23 ≤ length out.old }
    ensures appended { Appended (shown_of word.now) out.old at out.new result }
    ensures upper_bound { result ≤ at + 23 }
{
    if word.len() <= 20 {
        return put_shown_bytes(out, at, word);
    }
    let end = put_shown_bytes(out, at, &word[..20]);
    put_bytes(out, end, b"...")
}
