// A buffer for a text, or for the logs.
ghost use Rattle.text.specs.Zeros.{Zeros};

use text::filled;

// One byte more than a text may have, and than 16 logs of 65,536 bytes.
pub fn megabyte() -> [u8; 1048577]
    ensures { Zeros 1048577 result }
{
    filled(0)
}
