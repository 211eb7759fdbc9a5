// The fields of a message that the quick pass took, by their spots.
ghost use Rattle.std.specs.Prelude.{◌≡◌, ◌≤◌, ◌+◌, [], ◌∷◌, length, Ok};
ghost use lib.Seq.{sets};
ghost use Rattle.std.proofs.Props.{props};
ghost use Rattle.fields.specs.Field.{fields};
ghost use Rattle.types.specs.Sign.{sign_of};
ghost use Rattle.frame.specs.Frame.{frame_of};
ghost use Rattle.message.specs.Taken.{taken_once};

use super::Span;
use super::sign::is_signed;
use base::Refusal;
use base::bits::{bit_at, ones_below};
use fields::{start_at, tag_at};
use frame::Frame;
use frame::quick::frame;
use types::Form;

// A field: its colon, its tag as one number, and its content.
#[derive(Clone, Copy)]
pub(crate) struct FieldAt {
    pub colon: usize,
    pub tag: u32,
    pub start: usize,
    pub end: usize,
}

// Three numbers put into the list.
// Stays: a store for each number; copy_from_slice takes nine instructions a field more, and the check 1.2%.
fn put(list: &mut [u32], at: usize, a: u32, b: u32, c: u32)
    requires { at + 3 ≤ length list.old }
    ensures { list.new ≡ sets list.old at (a ∷ b ∷ c ∷ []) }
{
    list[at] = a;
    list[at + 1] = b;
    list[at + 2] = c;
}

// A message that the quick pass took, whether it has the sign, and where its fields stand.
#[derive(Clone, Copy)]
pub struct Fields<'a> {
    pub form: Form,
    pub message: &'a [u8],
    pub sign: bool,
    pub frame: Frame,
    pub ghost taken: { frame_of form message.now ≡ Ok frame } by { taken_once form message.now frame },
    pub ghost signed: { sign ≡ sign_of (fields message.now) } by { Prim.hlevel props },
}

impl<'a> Fields<'a> {
    ghost use Rattle.std.specs.Prelude.{◌<◌, ◌*◌};
    ghost use Rattle.base.specs.Calls.{over};
    ghost use Rattle.fields.specs.Places.{listed};
    ghost use Rattle.types.specs.Form.{places_of};
    ghost use Rattle.frame.specs.Frame.{refusal};
    ghost use Rattle.message.specs.Lists.{part_at};
    ghost use Rattle.message.specs.Parts.{Here};
    ghost use Rattle.message.specs.Fields.{HandsOn};

    // The quick pass over a message: its fields, or its refusal.
    pub(crate) fn taken(form: Form, message: &'a [u8]) -> Result<Fields<'a>, Refusal>
        ensures { HandsOn form message.entry (refusal form message.now) result }
    {
        let frame = frame(form, message)?;
        Ok(Fields {
            form,
            message,
            sign: is_signed(message),
            frame,
        })
    }

    // How many there are.
    pub fn count(&self) -> usize
        ensures { result ≡ length (fields self.now.message.now) }
    {
        self.frame.fields
    }

    // The field of that number.
    pub(crate) fn at(&self, k: usize) -> FieldAt
        requires { k < length (fields self.now.message.now) }
        ensures { Here self.now.message.now self.now.frame.spots k result }
    {
        let o = self.frame.spots[k];
        let next = self.frame.spots[k + 1];
        let colon = o as usize;
        let start = start_at(self.message, o);
        FieldAt {
            colon,
            tag: tag_at(self.message, o),
            start,
            end: next as usize - 2,
        }
    }

    // Where the content of a place stands: as many fields stand before it as there are ones below its bit.
    pub(crate) fn part_of(&self, place: usize) -> Option<Span>
        ensures { result ≡ part_at (places_of self.now.form) place 5 (fields self.now.message.now) }
    {
        if bit_at(self.frame.present, place) == 0 {
            return None;
        }
        let p = self.at(ones_below(self.frame.present, place));
        Some(Span {
            start: p.start,
            end: p.end,
        })
    }

    // Colon, content start and content end of each field, put over the front of the list.
    pub(crate) fn fill(&self, list: &mut [u32])
        requires { 3 * length (fields self.now.message.now) ≤ length list.old }
        ensures { list.new ≡ over (listed 5 (fields self.now.message.now)) list.old }
    {
        for k in 0..self.count() {
            let p = self.at(k);
            put(list, 3 * k, p.colon as u32, p.start as u32, p.end as u32);
        }
    }
}
