//! The choices of a case so far.
ghost use Rattle.std.specs.Prelude.{◌≡◌, drop, IfOk, OnOk};
ghost use Rattle.std.specs.List.{list_any};
ghost use Rattle.ams_value.specs.Values.{equals};
ghost use Rattle.elab_meaning.specs.Parts.{judged};
ghost use Rattle.unit_meaning.specs.Cases as spec;
ghost use Rattle.case_types.specs.Choices.{fine};

use ams_value::{Val, equal};
use elab_meaning::{Asked, Part};
use expr_types::same_kind;
use name_scope::Kind;
use sqlite_items::Items;
use std::alloc::{AllocError, Global};
use unit_meaning::Seen;

/// Before the first choice.
pub fn nothing_seen(alloc: Global) -> Seen
    ensures { result ≡ spec.nothing_seen }
{
    Seen {
        values: Items::new(alloc),
        others: false,
        unsure: false,
    }
}

/// The values of the choices behind the first ones.
pub fn values_since(alloc: Global, first: usize, seen: &Seen) -> Result<Items<Val>, AllocError>
    ensures { IfOk result (λ values. values ≡ drop first seen.now.values) }
{
    let values = seen.values.as_slice();
    if first <= values.len() {
        Items::from_slice(alloc, &values[first..])
    } else {
        Ok(Items::new(alloc))
    }
}

fn is_among(value: &Val, values: &[Val]) -> bool
    ensures { result ≡ list_any (equals value.now) values.now }
{
    values.iter().any(|other| equal(*value, *other))
}

/// Adds a value, which no choice before may have. Of a value that isn't known here, that there is one.
fn add_value(value: &Option<Val>, seen: &mut Seen) -> Result<Part<bool>, AllocError>
    ensures part { IfOk result (λ part. part ≡ judged fine (spec.with_value value.now seen.old)) }
    ensures ok { OnOk result (seen.new ≡ spec.seen_or seen.old (spec.with_value value.now seen.old)) }
{
    let Some(value) = value else {
        seen.unsure = true;
        return Ok(Part::Kept(true));
    };
    if is_among(value, seen.values.as_slice()) {
        return Ok(Part::Wrong);
    }
    seen.values.push(*value)?;
    Ok(Part::Kept(true))
}

fn fits_kind(kind: &Option<Kind>, choice: Kind) -> bool
    ensures { result ≡ spec.fits_kind kind.now choice }
{
    match kind {
        Some(kind) => same_kind(choice, *kind),
        None => true,
    }
}

/// Adds a choice, which is of the type of the expression where that keeps the rules.
pub fn add_choice(
    kind: &Option<Kind>,
    choice: &Asked,
    seen: &mut Seen,
) -> Result<Part<bool>, AllocError>
    ensures part { IfOk result (λ part. part ≡ judged fine (spec.choosing_value kind.now seen.old choice.now)) }
    ensures ok { OnOk result (seen.new ≡ spec.seen_or seen.old (spec.choosing_value kind.now seen.old choice.now)) }
{
    if fits_kind(kind, choice.kind) {
        add_value(&choice.value, seen)
    } else {
        Ok(Part::Wrong)
    }
}
