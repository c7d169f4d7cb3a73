//! Whether the choices of a case are all that there can be.
ghost use Rattle.std.specs.Prelude.{◌≡◌, ◌^◌, nat_le};
ghost use Rattle.std.specs.List.{slice_get};
ghost use Rattle.unit_meaning.specs.Cases as spec;

use ams_value::ValueType;
use flat_design::Enumeration;
use name_scope::Kind;
use sqlite_items::at;
use unit_meaning::Seen;

fn literal_count(enumerations: &[Enumeration], number: u16) -> usize
    ensures { result ≡ spec.literal_count (slice_get enumerations.now number) }
{
    match at(enumerations, usize::from(number)) {
        Some(enumeration) => enumeration.literals.len(),
        None => 0,
    }
}

/// Whether there are as many values as vectors of a length.
fn all_vectors(length: u8, count: usize) -> bool
    ensures { result ≡ nat_le (2 ^ length) count }
{
    if length < 64 {
        1 << length <= count
    } else {
        false
    }
}

fn all_stand(enumerations: &[Enumeration], kind: Kind, count: usize) -> bool
    ensures { result ≡ spec.all_stand enumerations.now kind count }
{
    match kind {
        Kind::Of(ValueType::Boolean) | Kind::Of(ValueType::Bit) => 2 <= count,
        Kind::Of(ValueType::Enumeration(number)) => literal_count(enumerations, number) <= count,
        Kind::Of(ValueType::BitVector(length)) => all_vectors(length, count),
        Kind::Vector => true,
        _ => false,
    }
}

/// Whether each value of the type of a case stands among its choices, as far as they are known.
pub fn is_covered(enumerations: &[Enumeration], kind: Kind, seen: &Seen) -> bool
    ensures { result ≡ spec.covers enumerations.now kind seen.now }
{
    seen.others || seen.unsure || all_stand(enumerations, kind, seen.values.len())
}
