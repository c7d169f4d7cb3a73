//! Which values a subtype has.
ghost use Rattle.std.specs.Prelude.{◌≡◌};
ghost use Rattle.elab_meaning.specs.Subtypes as spec;

use ams_value::Val;
use elab_meaning::Asked;
use expr_types::same_kind;
use name_scope::{Subtype, SubtypeConstraint};

/// Whether the subtype has a value of its type.
pub fn holds(constraint: &SubtypeConstraint, value: &Val) -> bool
    ensures { result ≡ spec.holds constraint.now value.now }
{
    match constraint {
        SubtypeConstraint::Range(range) => range.holds(*value),
        SubtypeConstraint::Index(_) | SubtypeConstraint::Later => true,
    }
}

fn holds_known(constraint: &SubtypeConstraint, value: &Option<Val>) -> bool
    ensures { result ≡ spec.holds_known constraint.now value.now }
{
    match value {
        Some(value) => holds(constraint, value),
        None => true,
    }
}

/// Whether a value may be given to a name of the subtype.
pub fn suits(subtype: &Subtype, value: &Asked) -> bool
    ensures { result ≡ spec.suits subtype.now value.now }
{
    same_kind(subtype.kind, value.kind) && holds_known(&subtype.constraint, &value.value)
}
