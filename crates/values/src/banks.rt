// The tags of the banks that 11 asks for.
ghost use Rattle.std.specs.Prelude.{◌≡◌};
ghost use Rattle.fields.specs.Shapes.{unpack};
ghost use Rattle.types.specs.Walk.{among};
ghost use Rattle.values.specs.Judged.{tags_56, tags_57};

use types::tags::{TAG_56A, TAG_56D, TAG_57A, TAG_57D};

pub fn is_56(tag: u32) -> bool
    ensures { result ≡ among (unpack tag) tags_56 }
{
    tag == TAG_56A || tag == TAG_56D
}

pub fn is_57(tag: u32) -> bool
    ensures { result ≡ among (unpack tag) tags_57 }
{
    tag == TAG_57A || tag == TAG_57D
}
