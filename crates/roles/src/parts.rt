// What a part is by its role, and what the parts behind it are.
ghost use Rattle.std.specs.Prelude.{◌≡◌, ◌&&◌};
ghost use Rattle.roles.specs.Parts.{is_name_by, next_role, first_role};

use super::clauses::starts;
use super::{Role, Shape};
use contents::lines::looks_tax;

// Whether a part is a name. A payer's first part is an account, or stands in the tax place.
fn is_name(role: Role, p: &[u8]) -> bool
    ensures { result ≡ is_name_by role p.now }
{
    match role {
        Role::Copies | Role::OfAgent => false,
        Role::OfPayer => !starts(b'/', p) && !looks_tax(p),
        Role::OfPayee => !starts(b'/', p),
        Role::Taxed => !looks_tax(p),
        Role::Names => true,
    }
}

// Whether a part is a name that the sign makes a text of.
pub fn is_spoken(sign: bool, role: Role, p: &[u8]) -> bool
    ensures { result ≡ (sign && is_name_by role p.now) }
{
    sign && is_name(role, p)
}

// What the parts behind this one are.
pub fn next_role(role: Role, p: &[u8]) -> Role
    ensures { result ≡ next_role role p.now }
{
    match role {
        Role::Copies => Role::Copies,
        Role::OfPayer if starts(b'/', p) => Role::Taxed,
        Role::OfPayee => Role::Taxed,
        Role::OfPayer | Role::OfAgent | Role::Taxed | Role::Names => Role::Names,
    }
}

// What the parts are from the first on, where each is a line.
pub fn first_role(shape: Shape) -> Role
    ensures { result ≡ first_role shape }
{
    match shape {
        Shape::Plain | Shape::Details | Shape::Note103 | Shape::Note202 => Role::Copies,
        Shape::Payer => Role::OfPayer,
        Shape::Payee => Role::OfPayee,
        Shape::Agent => Role::OfAgent,
    }
}
