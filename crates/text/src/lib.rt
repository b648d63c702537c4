// Text put into a lent buffer: each function puts its text at an offset and returns the offset after it.

#![tactic(auto)]

ghost use Rattle.std.specs.Prelude.{[], ◌∷◌, ◌+◌, ◌<◌, ◌≤◌, length};
ghost use Rattle.text.specs.Appended.{Appended};
ghost use Rattle.text.specs.Decimal.{decimal_of, field_of};
ghost use Rattle.text.specs.Zeros.{Filled};

// A buffer of any type and length. A call of it, because a slice whose length is a large number in the code takes much longer to prove.
pub fn filled<T: Copy, const N: usize>(value: T) -> [T; N]
    ensures { Filled N value result }
{
    [value; N]
}

pub fn put_byte(out: &mut [u8], at: usize, byte: u8) -> usize
    requires { at < length out.old }
    ensures { Appended (byte ∷ []) out.old at out.new result }
{
    out[at] = byte;
    at + 1
}

pub fn put_bytes(out: &mut [u8], at: usize, text: &[u8]) -> usize
    requires { at + length text.now ≤ length out.old }
    ensures { Appended text.now out.old at out.new result }
{
    codec::write::put_bytes(out, at, text);
    at + text.len()
}

// The decimal digits of a number, most significant first, without leading zeros.
pub fn put_number(out: &mut [u8], at: usize, n: u64) -> usize
    requires { at + length (decimal_of n) ≤ length out.old }
    ensures { Appended (decimal_of n) out.old at out.new result }
{
    let mut digits = [0u8; 20];
    let k = io::decimal(n, &mut digits);
    put_bytes(out, at, &digits[..k])
}

// A number and the byte that separates it from what comes next.
pub fn put_field(out: &mut [u8], at: usize, n: u64, after: u8) -> usize
    requires { at + length (field_of n after) ≤ length out.old }
    ensures { Appended (field_of n after) out.old at out.new result }
{
    let end = put_number(out, at, n);
    put_byte(out, end, after)
}
