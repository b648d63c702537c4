// The part of some bytes before one of them.
ghost use Rattle.std.specs.Prelude.{◌≡◌, eqb, take};
ghost use Rattle.std.specs.List.{position};
ghost use Rattle.lines.specs.Bytes.{index_of};

// Where a byte first stands.
fn find(bytes: &[u8], byte: u8) -> Option<usize>
    ensures { result ≡ position (λ b. eqb b byte) bytes.now }
{
    bytes.iter().position(|b| *b == byte)
}

// The bytes before the first `byte`, or all of them if it is missing.
pub(crate) fn before(bytes: &[u8], byte: u8) -> &[u8]
    ensures { result.now ≡ take (index_of byte bytes.now) bytes.now }
{
    match find(bytes, byte) {
        Some(end) => &bytes[..end],
        None => bytes,
    }
}
