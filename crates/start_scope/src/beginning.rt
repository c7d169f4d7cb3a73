//! What a unit is read with first.
ghost use Rattle.std.specs.Prelude.{◌≡◌, [], ◌∷◌, ◌++◌, codes, IfOk, OnOk};
ghost use Rattle.elab_meaning.specs.Notes as noted;
ghost use Rattle.unit_meaning.specs.Associations as associations;
ghost use Rattle.unit_meaning.specs.Units as spec;
ghost use Rattle.expr_types.specs.Known.{IsSoundScope};

use crate::predefined::start_of;
use ams_token::Names;
use elab_meaning::{Book, Notes};
use flat_design::{Enumeration, Objects};
use name_scope::Scope;
use sqlite_items::Items;
use std::alloc::{AllocError, Global};

/// How many natures there are round each unit.
const FIRST_NATURES: u32 = 1;

pub fn no_notes(alloc: Global) -> Notes
    ensures { result ≡ noted.no_notes }
{
    Notes {
        faults: Items::new(alloc),
        dots: Items::new(alloc),
        thresholds: Items::new(alloc),
    }
}

/// A literal of DOMAIN_TYPE.
fn add_literal(alloc: Global, text: &str, literals: &mut Items<Items<u8>>) -> Result<(), AllocError>
    ensures { OnOk result (literals.new ≡ literals.old ++ text.now ∷ []) }
{
    literals.push(Items::from_slice(alloc, text.as_bytes())?)
}

fn domain_type(alloc: Global) -> Result<Enumeration, AllocError>
    ensures { IfOk result (λ type. type ≡ record { literals = codes "quiescent_domain" ∷ codes "time_domain" ∷ codes "frequency_domain" ∷ [] }) }
{
    let mut literals = Items::new(alloc);
    add_literal(alloc, "quiescent_domain", &mut literals)?;
    add_literal(alloc, "time_domain", &mut literals)?;
    add_literal(alloc, "frequency_domain", &mut literals)?;
    Ok(Enumeration { literals })
}

/// The objects that each design has: enumeration type 0 is DOMAIN_TYPE.
pub fn first_objects(alloc: Global) -> Result<Objects, AllocError>
    ensures { IfOk result (λ objects. objects ≡ spec.first_objects) }
{
    let mut enumerations = Items::new(alloc);
    enumerations.push(domain_type(alloc)?)?;
    Ok(Objects {
        signals: Items::new(alloc),
        quantities: Items::new(alloc),
        nodes: Items::new(alloc),
        equations: Items::new(alloc),
        dots: Items::new(alloc),
        thresholds: Items::new(alloc),
        processes: Items::new(alloc),
        instances: Items::new(alloc),
        enumerations,
        ramps: Items::new(alloc),
    })
}

/// The book of a scope, with nothing read.
pub fn new_book(alloc: Global, scope: Scope) -> Book
    ensures { result ≡ associations.new_book scope }
{
    Book {
        scope,
        notes: no_notes(alloc),
        objects: Objects::new(alloc),
        path: Items::new(alloc),
        natures: FIRST_NATURES,
    }
}

/// The book with which the check of a file begins.
pub fn first_book(alloc: Global, names: &Names) -> Result<Book, AllocError>
    ensures value { IfOk result (λ book. book ≡ spec.first_book names.now) }
    ensures sound { IfOk result (λ book. IsSoundScope book.scope) }
{
    let scope = start_of(alloc, names)?;
    Ok(Book {
        scope,
        notes: no_notes(alloc),
        objects: first_objects(alloc)?,
        path: Items::new(alloc),
        natures: FIRST_NATURES,
    })
}
