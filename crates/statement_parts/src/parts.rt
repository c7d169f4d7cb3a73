//! Parts of statements and of declarations.
ghost use Rattle.std.specs.Prelude.{◌≡◌, IfOk};
ghost use Rattle.elab_meaning.specs.Parts as spec;
ghost use Rattle.unit_meaning.specs.Settings.{finished, paired};
ghost use Rattle.expr_types.specs.Known.{Finds};
ghost use Rattle.statement_parts.specs.Lists.{behind};

use ams_token::Place;
use ams_tree::Name;
use elab_meaning::{Cause, Notes, Part};
use expr_types::note;
use name_scope::Thing;
use sqlite_items::Items;
use std::alloc::AllocError;

/// What is found of an expression, as a part of what holds it.
pub fn part_of<T: Drop>(found: Option<T>) -> Part<T>
    ensures { result ≡ spec.part_of found }
{
    match found {
        Some(found) => Part::Kept(found),
        None => Part::Hidden,
    }
}

/// Two parts as one.
pub fn both<A: Drop, B: Drop>(a: Part<A>, b: Part<B>) -> Part<(A, B)>
    ensures { result ≡ spec.both paired a b }
{
    match a {
        Part::Kept(a) => match b {
            Part::Kept(b) => Part::Kept((a, b)),
            Part::Wrong => Part::Wrong,
            Part::Hidden => Part::Hidden,
        },
        Part::Wrong => match b {
            Part::Hidden => Part::Hidden,
            _ => Part::Wrong,
        },
        Part::Hidden => Part::Hidden,
    }
}

/// Puts a part behind those before it.
pub fn put<T: Drop>(so_far: Part<Items<T>>, part: Part<T>) -> Result<Part<Items<T>>, AllocError>
    ensures { IfOk result (λ all. all ≡ spec.both behind so_far part) }
{
    match both(so_far, part) {
        Part::Kept((so_far, part)) => {
            let mut all = so_far;
            all.push(part)?;
            Ok(Part::Kept(all))
        }
        Part::Wrong => Ok(Part::Wrong),
        Part::Hidden => Ok(Part::Hidden),
    }
}

/// Notes the whole at this place, where it breaks a rule of its own.
pub fn finish<T: Drop>(
    place: Place,
    whole: Part<T>,
    notes: &mut Notes,
) -> Result<Part<T>, AllocError>
    ensures { Finds (finished place (notes.old, whole)) result notes.new }
{
    match whole {
        Part::Kept(whole) => Ok(Part::Kept(whole)),
        Part::Wrong => {
            note(notes, place, Cause::WrongType)?;
            Ok(Part::Hidden)
        }
        Part::Hidden => Ok(Part::Hidden),
    }
}

/// What a name stands for, where it stands in a statement or declaration and in no expression.
pub fn found_thing(
    name: Name,
    thing: &Option<Thing>,
    notes: &mut Notes,
) -> Result<Part<Thing>, AllocError>
    ensures { Finds (spec.found_thing name thing.now notes.old) result notes.new }
{
    match thing {
        None => {
            note(notes, name.place, Cause::Unknown(name.number))?;
            Ok(Part::Hidden)
        }
        Some(Thing::Faulty) => Ok(Part::Hidden),
        Some(thing) => Ok(Part::Kept(*thing)),
    }
}
