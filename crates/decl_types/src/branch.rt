//! Branch quantities (IEEE 1076.1, 6.4.2.7).
ghost use Rattle.std.specs.Prelude.{◌≡◌, OnOk};
ghost use Rattle.ams_tree.specs.declared.expression.Name.{Name as Written};
ghost use Rattle.elab_meaning.specs.declared.fault.Notes.{Notes as Noted};
ghost use Rattle.elab_meaning.specs.Declarations as spec;
ghost use Rattle.elab_meaning.specs.Parts.{both, found_thing, judged};
ghost use Rattle.expr_types.specs.Known.{IsSoundScope};
ghost use Rattle.decl_types.specs.Books.{FindsIn};

use ams_token::{Names, Place};
use ams_tree::Name;
use decl_names::{Entry, declare_each, declare_faulty, declare_wrong};
use elab_meaning::{Book, Cause, Notes, Part};
use expr_types::note;
use fix_core::Fix;
use flat_design::{QuantityKind, Terminal};
use name_scope::{QuantityClass, Thing};
use std::alloc::{AllocError, Global};
use subtype_types::note_unknown;

/// The terminal that a name stands for, with its nature.
fn terminal_part(thing: &Option<Thing>) -> Part<(Terminal, u32)>
    ensures { (x : Written) (n : Noted) → result ≡ judged spec.terminal_of (found_thing x thing.now n).1 }
{
    match thing {
        Some(Thing::Terminal(terminal, nature)) => Part::Kept((*terminal, *nature)),
        None | Some(Thing::Faulty) => Part::Hidden,
        Some(_) => Part::Wrong,
    }
}

/// Reads the name of a terminal.
fn terminal_named(name: Name, book: &mut Book) -> Result<Part<(Terminal, u32)>, AllocError>
    ensures { FindsIn (spec.terminal_named name book.old book.old.notes) result book.old book.new }
{
    let thing = book.scope.find(name.number);
    note_unknown(name, &thing, &mut book.notes)?;
    Ok(terminal_part(&thing))
}

/// Notes the second of two ends, where it has another nature than the first.
fn match_ends(
    place: Place,
    plus: &Part<(Terminal, u32)>,
    minus: &Part<(Terminal, u32)>,
    notes: &mut Notes,
) -> Result<(), AllocError>
    ensures { OnOk result (notes.new ≡ spec.matched_ends place plus.now minus.now notes.old) }
{
    match (plus, minus) {
        (Part::Kept((_, first)), Part::Kept((_, second))) => {
            if first == second {
                Ok(())
            } else {
                note(notes, place, Cause::NatureMismatch)
            }
        }
        _ => Ok(()),
    }
}

fn both_ends(
    plus: &Part<(Terminal, u32)>,
    minus: &Part<(Terminal, u32)>,
) -> Part<(Terminal, Terminal)>
    ensures { result ≡ both spec.ends plus.now minus.now }
{
    match (plus, minus) {
        (Part::Kept((plus, _)), Part::Kept((minus, _))) => Part::Kept((*plus, *minus)),
        (Part::Hidden, _) | (_, Part::Hidden) => Part::Hidden,
        _ => Part::Wrong,
    }
}

fn to_reference(plus: &Part<(Terminal, u32)>) -> Part<(Terminal, Terminal)>
    ensures { result ≡ judged spec.to_reference plus.now }
{
    match plus {
        Part::Kept((plus, _)) => Part::Kept((*plus, Terminal::Reference)),
        Part::Wrong => Part::Wrong,
        Part::Hidden => Part::Hidden,
    }
}

/// Reads the two ends of a branch.
fn branch(
    plus: Name,
    minus: &Option<Name>,
    book: &mut Book,
) -> Result<Part<(Terminal, Terminal)>, AllocError>
    ensures { FindsIn (spec.branch plus minus.now book.old) result book.old book.new }
{
    let first = terminal_named(plus, book)?;
    let Some(minus) = minus else {
        return Ok(to_reference(&first));
    };
    let second = terminal_named(*minus, book)?;
    match_ends(minus.place, &first, &second, &mut book.notes)?;
    Ok(both_ends(&first, &second))
}

fn declare_across(
    alloc: Global,
    names: &Names,
    ends: (Terminal, Terminal),
    declared: &[Name],
    book: &mut Book,
) -> Result<(), AllocError>
    requires { IsSoundScope book.old.scope }
    ensures ok { OnOk result (book.new ≡ spec.each (spec.across_of names.now ends) declared.now book.old) }
    ensures sound { OnOk result (IsSoundScope book.new.scope) }
{
    let kind = QuantityKind::Across(ends.0, ends.1);
    let entry = Entry::Quantity(kind, QuantityClass::Across, Fix::exactly(0));
    declare_each(alloc, names, &entry, declared, book)
}

fn declare_through(
    alloc: Global,
    names: &Names,
    ends: (Terminal, Terminal),
    declared: &[Name],
    book: &mut Book,
) -> Result<(), AllocError>
    requires { IsSoundScope book.old.scope }
    ensures ok { OnOk result (book.new ≡ spec.each (spec.through_of names.now ends) declared.now book.old) }
    ensures sound { OnOk result (IsSoundScope book.new.scope) }
{
    let kind = QuantityKind::Through(ends.0, ends.1);
    let entry = Entry::Quantity(kind, QuantityClass::Through, Fix::exactly(0));
    declare_each(alloc, names, &entry, declared, book)
}

fn declare_branch(
    alloc: Global,
    names: &Names,
    place: Place,
    across: &[Name],
    through: &[Name],
    part: &Part<(Terminal, Terminal)>,
    book: &mut Book,
) -> Result<(), AllocError>
    requires { IsSoundScope book.old.scope }
    ensures ok { OnOk result (book.new ≡ spec.branch_quantities names.now place across.now through.now (book.old.notes, part.now) book.old) }
    ensures sound { OnOk result (IsSoundScope book.new.scope) }
{
    match part {
        Part::Kept(ends) => {
            declare_across(alloc, names, *ends, across, book)?;
            declare_through(alloc, names, *ends, through, book)
        }
        Part::Wrong => {
            declare_wrong(place, across, book)?;
            declare_faulty(through, book)
        }
        Part::Hidden => {
            declare_faulty(across, book)?;
            declare_faulty(through, book)
        }
    }
}

/// Reads the ends of a branch, and declares its across and its through quantities.
pub fn branch_quantities(
    alloc: Global,
    names: &Names,
    place: Place,
    across: &[Name],
    through: &[Name],
    plus: Name,
    minus: &Option<Name>,
    book: &mut Book,
) -> Result<(), AllocError>
    requires { IsSoundScope book.old.scope }
    ensures ok { OnOk result (book.new ≡ spec.branch_quantities names.now place across.now through.now (spec.branch plus minus.now book.old) book.old) }
    ensures sound { OnOk result (IsSoundScope book.new.scope) }
{
    let part = branch(plus, minus, book)?;
    declare_branch(alloc, names, place, across, through, &part, book)
}
