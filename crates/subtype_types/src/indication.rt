//! Subtype indications (IEEE 1076, 6.3).
ghost use Rattle.std.specs.Prelude.{◌≡◌, IfOk};
ghost use Rattle.ams_tree.specs.declared.expression.Name.{Name as Written};
ghost use Rattle.elab_meaning.specs.declared.fault.Notes.{Notes as Noted};
ghost use Rattle.elab_meaning.specs.Parts.{both, found_thing};
ghost use Rattle.elab_meaning.specs.Subtypes as spec;
ghost use Rattle.expr_types.specs.Known.{Finds, IsSoundScope};

use crate::index::index_subtype;
use crate::part::note_unknown;
use crate::range::in_bounds;
use ams_token::Names;
use ams_tree::SubtypeIndication;
use elab_meaning::{Notes, Part};
use name_scope::{Scope, Subtype, Thing};
use std::alloc::{AllocError, Global};

/// The subtype of a mark: BIT_VECTOR alone has the range of an index, and must have it.
fn marked(mark: &Thing, index: &Option<Subtype>) -> Part<Subtype>
    ensures { result ≡ spec.marked mark.now index.now }
{
    match (mark, index) {
        (Thing::BitVector, Some(vector)) => Part::Kept(*vector),
        (Thing::Type(subtype, _), None) => Part::Kept(*subtype),
        _ => Part::Wrong,
    }
}

/// The subtype of what a mark stands for.
fn marked_part(thing: &Option<Thing>, index: &Part<Option<Subtype>>) -> Part<Subtype>
    ensures { (x : Written) (n : Noted) → result ≡ both spec.marked (found_thing x thing.now n).1 index.now }
{
    match (thing, index) {
        (None | Some(Thing::Faulty), _) | (_, Part::Hidden) => Part::Hidden,
        (Some(mark), Part::Kept(index)) => marked(mark, index),
        (Some(_), Part::Wrong) => Part::Wrong,
    }
}

/// Reads a subtype indication: notes the rules that its parts break, and answers the subtype, where it keeps all rules.
pub fn subtype(
    alloc: Global,
    names: &Names,
    scope: &Scope,
    indication: &SubtypeIndication,
    notes: &mut Notes,
) -> Result<Part<Subtype>, AllocError>
    requires { IsSoundScope scope.now }
    ensures { Finds (spec.subtype names.now scope.now indication.now notes.old) result notes.new }
{
    let thing = scope.find(indication.mark.number);
    note_unknown(indication.mark, &thing, notes)?;
    match index_subtype(alloc, names, scope, &indication.index, notes) {
        Ok(index) => {
            let part = marked_part(&thing, &index);
            in_bounds(alloc, names, scope, &indication.bounds, part, notes)
        }
        Err(error) => Err(error),
    }
}
