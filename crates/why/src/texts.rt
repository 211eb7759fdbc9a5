// What `why` says, made by .ci/numbers from docs/NUMBERS.md.

// What a number means, and what to do.
#[derive(Clone, Copy)]
pub(crate) struct Meaning {
    pub(crate) means: &'static [u8],
    pub(crate) remedy: &'static [u8],
}

// The other words.
#[derive(Clone, Copy)]
pub(crate) enum Text {
    Unknown,
    Todo,
    Field,
    Line,
    Missing,
    Or,
    Before,
    AtEnd,
    Length,
    CrLf,
    BareLf,
    Usage,
}
