// What a line of the text is.
ghost use Rattle.std.specs.Prelude.{◌≡◌, ◌<◌};
ghost use Rattle.lines.specs.Number.{number_limit};
ghost use Rattle.lines.specs.Rows.{fields_in};
ghost use Rattle.faults.specs.Kind.{first_of, kind_after, count_of};

use crate::expected::Expected;
use codec::cell::width_of;
use lines::rows::Sizes;

// T and N, or T, N and F; the owners; the starting values; or an access.
#[derive(Clone, Copy)]
pub enum Kind {
    Sizes,
    Owners,
    Starts,
    Access,
}

// What its first word has to be.
pub(crate) fn first(kind: Kind) -> Expected
    ensures { result ≡ first_of kind }
{
    match kind {
        Kind::Sizes => Expected::Tasks,
        Kind::Owners => Expected::Owner,
        Kind::Starts => Expected::Start,
        Kind::Access => Expected::Task,
    }
}

// What the next line is.
pub(crate) fn kind_after(kind: Kind) -> Kind
    ensures { result ≡ kind_after kind }
{
    match kind {
        Kind::Sizes => Kind::Owners,
        Kind::Owners => Kind::Starts,
        Kind::Starts | Kind::Access => Kind::Access,
    }
}

// How many numbers a line of owners or starting values has.
pub(crate) fn count_of(kind: Kind, z: Sizes) -> usize
    requires { (z.objects < number_limit) × (fields_in z < number_limit) }
    ensures { result ≡ count_of kind z }
{
    match kind {
        Kind::Sizes | Kind::Access => 0,
        Kind::Owners => z.objects,
        Kind::Starts => z.objects * width_of(z.fields.unwrap_or(0)),
    }
}
