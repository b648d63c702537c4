// The names of what was expected.
ghost use Rattle.std.specs.Prelude.{◌≡◌, ◌≤◌, length};
ghost use Rattle.faults.specs.Name.{name_of, missing_name};

use crate::expected::Expected;
use crate::kind::Kind;

// The name of a word.
pub(crate) fn name_of(e: Expected) -> &'static [u8]
    ensures value { result.now ≡ name_of e }
    ensures upper_bound { length result.now ≤ 43 }
{
    match e {
        Expected::Tasks => b"the number of tasks",
        Expected::Objects => b"the number of objects",
        Expected::Fields => b"the number of fields or the end of the line",
        Expected::Owner => b"an owner",
        Expected::Start => b"a starting value",
        Expected::Task => b"a task number",
        Expected::Letter => b"R or W",
        Expected::ReadObject | Expected::WriteObject => b"an object number",
        Expected::ReadField | Expected::WriteField => b"a field number",
        Expected::Value => b"a value",
        Expected::End => b"the end of the line",
    }
}

// The name of a missing line.
pub(crate) fn missing_name(kind: Kind) -> &'static [u8]
    ensures value { result.now ≡ missing_name kind }
    ensures upper_bound { length result.now ≤ 43 }
{
    match kind {
        Kind::Sizes => b"the number of tasks",
        Kind::Owners => b"the owners",
        Kind::Starts => b"the starting values",
        Kind::Access => b"a task number",
    }
}
