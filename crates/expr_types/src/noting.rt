//! Notes of broken rules.
ghost use Rattle.std.specs.Prelude.{◌≡◌, IfOk, IfSome, OnOk};
ghost use Rattle.elab_meaning.specs.Notes as spec;
ghost use Rattle.expr_types.specs.Known.{Finds, IsSound};

use ams_token::Place;
use elab_meaning::{Cause, Context, Fault, Notes, Typed};
use std::alloc::AllocError;

/// Notes a broken rule.
pub fn note(notes: &mut Notes, place: Place, cause: Cause) -> Result<(), AllocError>
    ensures { OnOk result (notes.new ≡ spec.noted place cause notes.old) }
{
    notes.faults.push(Fault { place, cause })
}

/// The expression at this place breaks a rule.
pub fn wrong(notes: &mut Notes, place: Place) -> Result<Option<Typed>, AllocError>
    ensures found { Finds (spec.wrong place notes.old) result notes.new }
    ensures sound { IfOk result (λ t. IfSome t IsSound) }
{
    note(notes, place, Cause::WrongType)?;
    Ok(None)
}

/// Notes that a value that changes is read, where a static one is asked.
pub fn note_changing(context: Context, place: Place, notes: &mut Notes) -> Result<(), AllocError>
    ensures { OnOk result (notes.new ≡ spec.changing context place notes.old) }
{
    if context.is_static {
        note(notes, place, Cause::NotStatic)
    } else {
        Ok(())
    }
}
