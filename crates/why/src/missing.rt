// The mandatory places that a message passes over.
use crate::lines::field_start;
use crate::page::Page;
use crate::texts::Text;
use base::bytes::past;
use records::tags::tag_number;
use stored::up_to;
use types::forms::{Place, Tags, places_of};
use types::steps::Places;
use types::{Form, PLACES};

// The tag of the field whose colon stands at the front, as one number.
fn front_tag(m: &[u8]) -> u32 {
    tag_number(up_to(b':', past(m, 1)))
}

// The place of the field with that colon; past the last place where no field is there.
fn place_at(form: Form, m: &[u8], colon: usize) -> usize {
    Places::of(form).step_of(0, front_tag(past(m, colon))).place
}

// The place behind that of the field before this one: 0 where there is none.
fn place_behind(form: Form, m: &[u8], colon: usize) -> usize {
    if colon == 0 {
        return 0;
    }
    let start = field_start(m, colon - 1);
    if m.get(start) == Some(&b':') {
        place_at(form, m, start).saturating_add(1).min(PLACES)
    } else {
        0
    }
}

// A tag that is one number: its bytes one behind the other, 0 for the third where it has two.
fn add_tag(page: &mut Page, tag: u32) {
    let [_, first, second, third] = tag.to_be_bytes();
    page.add(&[first, second]);
    if third != 0 {
        page.add(&[third]);
    }
}

// The tags of a place, a word between where it has two.
fn put_tags(page: &mut Page, tags: Tags) {
    match tags {
        Tags::One(tag) => add_tag(page, tag),
        Tags::Either(first, second) => {
            add_tag(page, first);
            page.add(b" ");
            page.put_text(Text::Or);
            page.add(b" ");
            add_tag(page, second);
        }
    }
}

// The mandatory places from one up to another, with commas between.
fn put_places(page: &mut Page, form: Form, from: usize, to: usize) {
    let mut between: &[u8] = b"";
    for place in places_of(form).iter().take(to).skip(from) {
        if let Place::Mandatory(tags) = place {
            page.add(between);
            put_tags(page, *tags);
            between = b", ";
        }
    }
}

// What is missing in front of the field with that colon, or of the end.
pub(crate) fn put_missing(page: &mut Page, form: Form, m: &[u8], colon: usize) {
    page.put_label(Text::Missing);
    put_places(
        page,
        form,
        place_behind(form, m, colon),
        place_at(form, m, colon),
    );
    page.add(b"\n");
}
