// What the next word of a line has to be.
ghost use Rattle.std.specs.Prelude.{cond, ◌≡◌};
ghost use Rattle.faults.specs.Expected.{form_of, is_letter, has_form, behind_of, next_of};

use lines::field::Field;

// A read's line ends with its object, or with its field; a write's has a value after it.
#[derive(Clone, Copy)]
pub(crate) enum Expected {
    Tasks,
    Objects,
    Fields,
    Owner,
    Start,
    Task,
    Letter,
    ReadObject,
    WriteObject,
    ReadField,
    WriteField,
    Value,
    End,
}

// What such a word looks like: a number, R or W; after the last word nothing may follow.
#[derive(Clone, Copy)]
pub(crate) enum Form {
    Number,
    Letter,
    Nothing,
}

fn form_of(e: Expected) -> Form
    ensures { result ≡ form_of e }
{
    match e {
        Expected::Tasks
        | Expected::Objects
        | Expected::Fields
        | Expected::Owner
        | Expected::Start
        | Expected::Task
        | Expected::ReadObject
        | Expected::WriteObject
        | Expected::ReadField
        | Expected::WriteField
        | Expected::Value => Form::Number,
        Expected::Letter => Form::Letter,
        Expected::End => Form::Nothing,
    }
}

fn is_letter(field: Field) -> bool
    ensures { result ≡ is_letter field }
{
    matches!(field, Field::Read | Field::Write)
}

// Whether a word's field is as expected.
pub(crate) fn fits(e: Expected, field: Field) -> bool
    ensures { result ≡ has_form (form_of e) field }
{
    match form_of(e) {
        Form::Number => field.number().is_some(),
        Form::Letter => is_letter(field),
        Form::Nothing => false,
    }
}

// What is expected after an object: its field if lines name one.
fn behind_object(named: bool, field: Expected, other: Expected) -> Expected
    ensures { result ≡ cond named field other }
{
    if named { field } else { other }
}

// What is expected after such a word, given whether lines name a field. After a letter other than W comes the object of a read.
fn behind(e: Expected, named: bool) -> Expected
    ensures { result ≡ behind_of named e }
{
    match e {
        Expected::Tasks => Expected::Objects,
        Expected::Objects => Expected::Fields,
        Expected::Owner => Expected::Owner,
        Expected::Start => Expected::Start,
        Expected::Task => Expected::Letter,
        Expected::Letter => Expected::ReadObject,
        Expected::ReadObject => behind_object(named, Expected::ReadField, Expected::End),
        Expected::WriteObject => behind_object(named, Expected::WriteField, Expected::Value),
        Expected::WriteField => Expected::Value,
        Expected::Fields | Expected::ReadField | Expected::Value | Expected::End => Expected::End,
    }
}

// What is expected next, given a word's field.
pub(crate) fn next(e: Expected, field: Field, named: bool) -> Expected
    ensures { result ≡ next_of named e field }
{
    match field {
        Field::Write => Expected::WriteObject,
        _ => behind(e, named),
    }
}
