//! Natures, and the terminals that have them (IEEE 1076.1, 4.8).
ghost use Rattle.std.specs.Prelude.{◌≡◌, OnOk};
ghost use Rattle.ams_tree.specs.declared.expression.Name.{Name as Written};
ghost use Rattle.elab_meaning.specs.declared.fault.Notes.{Notes as Noted};
ghost use Rattle.elab_meaning.specs.Declarations as spec;
ghost use Rattle.elab_meaning.specs.Parts.{both, found_thing, judged};
ghost use Rattle.expr_types.specs.Known.{IsSoundScope};
ghost use Rattle.decl_types.specs.Books.{FindsIn};

use ams_token::Place;
use ams_tree::Name;
use ams_value::ValueType;
use decl_names::declare;
use elab_meaning::{Book, Part};
use expr_types::same_kind;
use flat_design::Terminal;
use name_scope::{Kind, Thing};
use std::alloc::AllocError;
use subtype_types::{close, note_unknown};

/// The nature of what a name stands for.
fn nature_part(thing: &Option<Thing>) -> Part<u32>
    ensures { (x : Written) (n : Noted) → result ≡ judged spec.nature_of (found_thing x thing.now n).1 }
{
    match thing {
        Some(Thing::Nature(nature)) => Part::Kept(*nature),
        None | Some(Thing::Faulty) => Part::Hidden,
        Some(_) => Part::Wrong,
    }
}

/// Reads the name of a nature.
pub fn nature_named(name: Name, book: &mut Book) -> Result<Part<u32>, AllocError>
    ensures { FindsIn (spec.nature_named name book.old) result book.old book.new }
{
    let thing = book.scope.find(name.number);
    note_unknown(name, &thing, &mut book.notes)?;
    Ok(nature_part(&thing))
}

fn is_real(thing: &Thing) -> bool
    ensures { result ≡ spec.is_real thing.now }
{
    match thing {
        Thing::Type(subtype, _) => same_kind(subtype.kind, Kind::Of(ValueType::Real)),
        _ => false,
    }
}

fn new_nature(across: &Option<Thing>, through: &Option<Thing>) -> Part<bool>
    ensures { (x y : Written) (m n : Noted) → result ≡ both spec.new_nature (found_thing x across.now m).1 (found_thing y through.now n).1 }
{
    match (across, through) {
        (None | Some(Thing::Faulty), _) | (_, None | Some(Thing::Faulty)) => Part::Hidden,
        (Some(across), Some(through)) => {
            if is_real(across) && is_real(through) {
                Part::Kept(true)
            } else {
                Part::Wrong
            }
        }
    }
}

fn with_nature(name: Name, reference: Name, book: &mut Book) -> Result<(), AllocError>
    requires { IsSoundScope book.old.scope }
    ensures ok { OnOk result (book.new ≡ spec.with_nature name reference book.old) }
    ensures sound { OnOk result (IsSoundScope book.new.scope) }
{
    let number = book.natures;
    let Some(count) = number.checked_add(1) else {
        return Err(AllocError);
    };
    book.natures = count;
    declare(name, Thing::Nature(number), book)?;
    declare(
        reference,
        Thing::Terminal(Terminal::Reference, number),
        book,
    )
}

/// Reads a declaration of a nature with its types and its reference terminal.
pub fn nature(
    place: Place,
    name: Name,
    across: Name,
    through: Name,
    reference: Name,
    book: &mut Book,
) -> Result<(), AllocError>
    requires { IsSoundScope book.old.scope }
    ensures ok { OnOk result (book.new ≡ spec.nature place name across through reference book.old) }
    ensures sound { OnOk result (IsSoundScope book.new.scope) }
{
    let across_type = book.scope.find(across.number);
    let through_type = book.scope.find(through.number);
    note_unknown(across, &across_type, &mut book.notes)?;
    note_unknown(through, &through_type, &mut book.notes)?;
    let part = new_nature(&across_type, &through_type);
    close(place, &part, &mut book.notes)?;
    match part {
        Part::Kept(_) => with_nature(name, reference, book),
        Part::Wrong | Part::Hidden => {
            declare(name, Thing::Faulty, book)?;
            declare(reference, Thing::Faulty, book)
        }
    }
}
