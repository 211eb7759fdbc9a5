// One field of the walk: its tag's place among those of a form, and what is wrong with it there.
ghost use Rattle.std.specs.Prelude.{◌≡◌, not, ◌||◌, ◌≤◌, ◌<◌, length, map, position, IfSome, IfNone};
ghost use Rattle.std.specs.List.{list_any};
ghost use Rattle.fields.specs.Shapes.{unpack};
ghost use Rattle.types.specs.Form.{places_of};
ghost use Rattle.types.specs.Walk.{among, is_of, is_optional, find, skips, wrong};
ghost use Rattle.types.specs.Tables.{texts, place, fault, step_of, Sought, NoneSought};

use super::forms::Place::{self, Mandatory, Optional};
use super::forms::Tags::{self, Either, One};
use super::forms::places_of;
use super::{Form, Step};
use std::marker::Model;

impl Tags {
    fn has(&self, tag: u32) -> bool
        ensures { result ≡ among (unpack tag) (texts self.now) }
    {
        match *self {
            One(t) => t == tag,
            Either(t, u) => t == tag || u == tag,
        }
    }
}

impl Place {
    fn has(&self, tag: u32) -> bool
        ensures { result ≡ is_of (unpack tag) (place self.now) }
    {
        match self {
            Mandatory(tags) => tags.has(tag),
            Optional(tags) => tags.has(tag),
        }
    }

    fn is_mandatory(&self) -> bool
        ensures { result ≡ not (is_optional (place self.now)) }
    {
        matches!(self, Mandatory(_))
    }
}

// The first place with the tag.
fn first_with(places: &[Place], tag: u32) -> Option<usize>
    ensures { result ≡ position (λ p. is_of (unpack tag) (place p)) places.now }
{
    places.iter().position(|p| p.has(tag))
}

// The first place with the tag, or that is mandatory.
fn first_met(places: &[Place], tag: u32) -> Option<usize>
    ensures { result ≡ position (λ p. is_of (unpack tag) (place p) || not (is_optional (place p))) places.now }
{
    places.iter().position(|p| p.has(tag) || p.is_mandatory())
}

fn has_mandatory(places: &[Place]) -> bool
    ensures { result ≡ list_any (λ p. not (is_optional (place p))) places.now }
{
    places.iter().any(|p| p.is_mandatory())
}

fn place_in(places: &[Place], tag: u32) -> usize
    ensures { result ≡ find (map place places.now) (unpack tag) }
{
    first_with(places, tag).unwrap_or(places.len())
}

fn wrong_of(places: &[Place], next: usize, at: usize) -> Option<u32>
    ensures { result ≡ fault (wrong (map place places.now) next at) }
{
    if places.len() <= at {
        Some(5)
    } else if at < next {
        Some(6)
    } else if has_mandatory(&places[next..at]) {
        Some(7)
    } else {
        None
    }
}

// From next on, up to the tag or a mandatory place: most fields are met so after a step or two.
fn seek(places: &[Place], next: usize, tag: u32) -> Option<usize>
    ensures found { IfSome result (Sought (map place places.now) next (unpack tag)) }
    ensures none { IfNone result (NoneSought (map place places.now) next (unpack tag)) }
{
    if places.len() < next {
        return None;
    }
    let behind = &places[next..];
    let q = first_met(behind, tag)?;
    if behind[q].has(tag) {
        Some(next + q)
    } else {
        None
    }
}

// The places of a form, in order.
#[derive(Drop)]
pub struct Places {
    list: &'static [Place],
}

impl Model for Places {
    ghost use Rattle.std.specs.Prelude.{List};
    ghost use Rattle.types.specs.Form.{Place};

    ghost Value = { List Place };

    ghost use Rattle.types.specs.Tables.{places_in, AreOfAForm};

    ghost view = { places_in };

    ghost invariant = { AreOfAForm };
}

impl Places {
    pub fn of(form: Form) -> Places
        ensures { result ≡ places_of form }
    {
        Places {
            list: places_of(form),
        }
    }

    pub fn step_of(&self, next: usize, tag: u32) -> Step
        ensures { result ≡ step_of self.now next (unpack tag) }
    {
        if let Some(place) = seek(self.list, next, tag) {
            return Step { place, wrong: None };
        }
        let place = place_in(self.list, tag);
        Step {
            place,
            wrong: wrong_of(self.list, next, place),
        }
    }

    // 7 at the end: a mandatory place stands from next on.
    pub fn is_missing(&self, next: usize) -> bool
        ensures { result ≡ skips self.now next (length self.now) }
    {
        next < self.list.len() && has_mandatory(&self.list[next..])
    }
}
