// A field of details in numbers.
ghost use Rattle.std.specs.Prelude.{◌≡◌, ◌≤◌};

use super::DetailsField;

// A line holds so many bytes, and the two fields so many lines.
const LINE: usize = 35;

const LINES_70: usize = 4;

const LINES_72: usize = 6;

// The bytes of the mark before the first line of details in 72, of that before each later one, and of CR LF.
const MARK: usize = 5;

const NEXT: usize = 2;

pub(crate) const LINE_END: usize = 2;

// Whether a later line may not open with `:` or `-`; the room of the first line and of each later one, and how many of these there may be; the bytes
// before the first line and before each later one, CR LF counted. No sum of these is too great.
#[derive(Clone, Copy)]
pub(crate) struct LayoutNumbers {
    pub(crate) barred: bool,
    pub(crate) first: usize,
    pub(crate) later: usize,
    pub(crate) more: usize,
    pub(crate) mark: usize,
    pub(crate) next: usize,
    ghost small: { (first ≤ 1000) × (later ≤ 1000) × (more ≤ 1000) × (mark ≤ 1000) × (next ≤ 1000) },
}

impl LayoutNumbers {
    ghost use Rattle.details.specs.Steps.{layout_numbers};

    // Behind its RPP line 72 has a line fewer.
    pub(crate) fn new(into: DetailsField) -> LayoutNumbers
        ensures { result ≡ layout_numbers into }
    {
        match into {
            DetailsField::In70 => LayoutNumbers {
                barred: true,
                first: LINE,
                later: LINE,
                more: LINES_70 - 1,
                mark: 0,
                next: LINE_END,
            },
            DetailsField::In72 => LayoutNumbers {
                barred: false,
                first: LINE - MARK,
                later: LINE - NEXT,
                more: LINES_72 - 1,
                mark: MARK,
                next: LINE_END + NEXT,
            },
            DetailsField::BehindRpp => LayoutNumbers {
                barred: false,
                first: LINE - MARK,
                later: LINE - NEXT,
                more: LINES_72 - 2,
                mark: MARK,
                next: LINE_END + NEXT,
            },
        }
    }
}
