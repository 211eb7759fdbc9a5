// The forms as lists of their places.
ghost use Rattle.std.specs.Prelude.{◌≡◌, length, map};
ghost use Rattle.types.specs.Form.{form_of, places_of};
ghost use Rattle.types.specs.Tables.{place};

use self::Place::{Mandatory, Optional};
use self::Tags::{Either, One};
use super::tags::{
    TAG_20, TAG_21, TAG_23B, TAG_26T, TAG_32A, TAG_50K, TAG_52A, TAG_53B, TAG_56A, TAG_56D,
    TAG_57A, TAG_57D, TAG_58A, TAG_58D, TAG_59, TAG_70, TAG_71A, TAG_72, TAG_77B,
};
use super::{Form, PLACES};

// The tags that a field of a place may have, each as one number.
#[derive(Clone, Copy, PartialEq, Eq)]
pub enum Tags {
    One(u32),
    Either(u32, u32),
}

// A place of a form, where a message must have a field or may have one.
#[derive(Clone, Copy, PartialEq, Eq)]
pub enum Place {
    Mandatory(Tags),
    Optional(Tags),
}

static PLACES_103: [Place; 14] = [
    Mandatory(One(TAG_20)),
    Mandatory(One(TAG_23B)),
    Optional(One(TAG_26T)),
    Mandatory(One(TAG_32A)),
    Mandatory(One(TAG_50K)),
    Optional(One(TAG_52A)),
    Mandatory(One(TAG_53B)),
    Optional(Either(TAG_56A, TAG_56D)),
    Optional(Either(TAG_57A, TAG_57D)),
    Mandatory(One(TAG_59)),
    Mandatory(One(TAG_70)),
    Mandatory(One(TAG_71A)),
    Optional(One(TAG_72)),
    Optional(One(TAG_77B)),
];

static PLACES_202: [Place; 9] = [
    Mandatory(One(TAG_20)),
    Mandatory(One(TAG_21)),
    Mandatory(One(TAG_32A)),
    Optional(One(TAG_52A)),
    Mandatory(One(TAG_53B)),
    Optional(Either(TAG_56A, TAG_56D)),
    Optional(Either(TAG_57A, TAG_57D)),
    Mandatory(Either(TAG_58A, TAG_58D)),
    Mandatory(One(TAG_72)),
];

// The form of a type.
// Stays: a `From` beside `form_of`, which docs/PROMISES.md names, would say the same twice.
pub fn form_of(kind: u32) -> Form
    ensures { result ≡ form_of kind }
{
    match kind {
        103 => Form::Mt103,
        202 => Form::Mt202,
        _ => Form::Other,
    }
}

// A form's places, in order.
pub fn places_of(form: Form) -> &'static [Place]
    ensures { map place result.now ≡ places_of form }
{
    match form {
        Form::Other => &[],
        Form::Mt103 => {
            // A 103 is the longest type; `count_of` shows that no form has more.
            prove!(PLACES_103.len() == PLACES);
            &PLACES_103
        }
        Form::Mt202 => &PLACES_202,
    }
}

// How many places a form has.
pub fn count_of(form: Form) -> usize
    ensures { result ≡ length (places_of form) }
{
    let count = places_of(form).len();
    prove!(count <= PLACES);
    count
}
