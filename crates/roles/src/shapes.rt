// What the lines of a field are, by the type and the packed tag.
ghost use Rattle.std.specs.Prelude.{◌≡◌};
ghost use Rattle.fields.specs.Shapes.{unpack};
ghost use Rattle.roles.specs.Role.{shape_for, shape_of};

use super::Shape;
use contents::Content;
use contents::tags::held_by;
use types::Form;

fn shape_for(content: Content) -> Shape
    ensures { result ≡ shape_for content }
{
    match content {
        Content::Payer => Shape::Payer,
        Content::Beneficiary | Content::BeneficiaryBank => Shape::Payee,
        Content::BankByName => Shape::Agent,
        Content::Details => Shape::Details,
        Content::DocumentAndRest => Shape::Note103,
        Content::DocumentAndDetails => Shape::Note202,
        Content::Unknown
        | Content::Reference
        | Content::Related
        | Content::Operation
        | Content::Purpose
        | Content::Payment
        | Content::BankByBic
        | Content::OwnAccount
        | Content::AccountAndBic
        | Content::Charges
        | Content::Regulatory => Shape::Plain,
    }
}

pub fn shape_of(form: Form, tag: u32) -> Shape
    ensures { result ≡ shape_of form (unpack tag) }
{
    shape_for(held_by(form, tag))
}
