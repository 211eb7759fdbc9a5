// What a field holds, by its form and its tag.
ghost use Rattle.std.specs.Prelude.{◌≡◌};
ghost use Rattle.fields.specs.Shapes.{unpack};
ghost use Rattle.contents.specs.Tags.{tags_103, tags_202, held_in, held_by};

use super::Content;
use types::Form;
use types::tags::{
    TAG_20, TAG_21, TAG_23B, TAG_26T, TAG_32A, TAG_50K, TAG_52A, TAG_53B, TAG_56A, TAG_56D,
    TAG_57A, TAG_57D, TAG_58A, TAG_58D, TAG_59, TAG_70, TAG_71A, TAG_72, TAG_77B,
};

fn held_103(tag: u32) -> Content
    ensures { result ≡ held_in tags_103 (unpack tag) }
{
    match tag {
        TAG_20 => Content::Reference,
        TAG_23B => Content::Operation,
        TAG_26T => Content::Purpose,
        TAG_32A => Content::Payment,
        TAG_50K => Content::Payer,
        TAG_52A => Content::BankByBic,
        TAG_53B => Content::OwnAccount,
        TAG_56A => Content::BankByBic,
        TAG_56D => Content::BankByName,
        TAG_57A => Content::BankByBic,
        TAG_57D => Content::BankByName,
        TAG_59 => Content::Beneficiary,
        TAG_70 => Content::Details,
        TAG_71A => Content::Charges,
        TAG_72 => Content::DocumentAndRest,
        TAG_77B => Content::Regulatory,
        _ => Content::Unknown,
    }
}

fn held_202(tag: u32) -> Content
    ensures { result ≡ held_in tags_202 (unpack tag) }
{
    match tag {
        TAG_20 => Content::Reference,
        TAG_21 => Content::Related,
        TAG_32A => Content::Payment,
        TAG_52A => Content::BankByBic,
        TAG_53B => Content::OwnAccount,
        TAG_56A => Content::BankByBic,
        TAG_56D => Content::BankByName,
        TAG_57A => Content::BankByBic,
        TAG_57D => Content::BankByName,
        TAG_58A => Content::AccountAndBic,
        TAG_58D => Content::BeneficiaryBank,
        TAG_72 => Content::DocumentAndDetails,
        _ => Content::Unknown,
    }
}

pub fn held_by(form: Form, tag: u32) -> Content
    ensures { result ≡ held_by form (unpack tag) }
{
    match form {
        Form::Other => Content::Unknown,
        Form::Mt103 => held_103(tag),
        Form::Mt202 => held_202(tag),
    }
}
