//! Ports (IEEE 1076, 6.5.6.3; of quantities and terminals: IEEE 1076.1, 6.5.6.3).
ghost use Rattle.std.specs.Prelude.{◌≡◌, OnOk};
ghost use Rattle.elab_meaning.specs.Declarations as declarations;
ghost use Rattle.unit_meaning.specs.Interfaces as spec;
ghost use Rattle.expr_types.specs.Known.{IsSoundScope};
ghost use Rattle.decl_types.specs.Books.{FindsIn};

use crate::generics::first_place;
use ams_token::{Names, Place};
use ams_tree::{Mode, Name, Port, SubtypeIndication};
use decl_names::{Entry, declare_each, declare_faulty, declare_wrong};
use decl_types::{real_subtype, signals, terminals};
use elab_meaning::{Book, Part};
use fix_core::Fix;
use flat_design::QuantityKind;
use name_scope::{Access, QuantityClass, Subtype};
use std::alloc::{AllocError, Global};

/// A port without a mode is of mode in.
pub fn is_out(mode: Option<Mode>) -> bool
    ensures { result ≡ spec.is_out mode }
{
    matches!(mode, Some(Mode::Out))
}

/// Whether the processes of an architecture may assign a port of the mode.
pub fn access_of(mode: Option<Mode>) -> Access
    ensures { result ≡ spec.access_of mode }
{
    match mode {
        Some(Mode::Out) => Access::Assignable,
        Some(Mode::In) | None => Access::ReadOnly,
    }
}

fn class_of(mode: Option<Mode>) -> QuantityClass
    ensures { result ≡ spec.class_of mode }
{
    match mode {
        Some(Mode::Out) => QuantityClass::PortOut,
        Some(Mode::In) | None => QuantityClass::PortIn,
    }
}

/// Reads the subtype of quantity ports.
pub fn quantity_subtype(
    alloc: Global,
    names: &Names,
    indication: &SubtypeIndication,
    book: &mut Book,
) -> Result<Part<Subtype>, AllocError>
    requires { IsSoundScope book.old.scope }
    ensures { FindsIn (spec.quantity_subtype names.now indication.now book.old) result book.old book.new }
{
    real_subtype(alloc, names, &book.scope, indication, &mut book.notes)
}

fn declare_quantity_ports(
    alloc: Global,
    names: &Names,
    class: QuantityClass,
    place: Place,
    declared: &[Name],
    part: &Part<Subtype>,
    book: &mut Book,
) -> Result<(), AllocError>
    requires { IsSoundScope book.old.scope }
    ensures ok { OnOk result (book.new ≡ declarations.declaring_each (spec.quantity_port names.now class) place declared.now (book.old.notes, part.now) book.old) }
    ensures sound { OnOk result (IsSoundScope book.new.scope) }
{
    match part {
        Part::Kept(_) => {
            let entry = Entry::Quantity(QuantityKind::Free, class, Fix::exactly(0));
            declare_each(alloc, names, &entry, declared, book)
        }
        Part::Wrong => declare_wrong(place, declared, book),
        Part::Hidden => declare_faulty(declared, book),
    }
}

fn quantity_ports(
    alloc: Global,
    names: &Names,
    class: QuantityClass,
    place: Place,
    declared: &[Name],
    indication: &SubtypeIndication,
    book: &mut Book,
) -> Result<(), AllocError>
    requires { IsSoundScope book.old.scope }
    ensures ok { OnOk result (book.new ≡ declarations.declaring_each (spec.quantity_port names.now class) place declared.now (spec.quantity_subtype names.now indication.now book.old) book.old) }
    ensures sound { OnOk result (IsSoundScope book.new.scope) }
{
    match quantity_subtype(alloc, names, indication, book) {
        Ok(part) => declare_quantity_ports(alloc, names, class, place, declared, &part, book),
        Err(error) => Err(error),
    }
}

/// Reads a declaration of ports.
pub fn port(alloc: Global, names: &Names, written: &Port, book: &mut Book) -> Result<(), AllocError>
    requires { IsSoundScope book.old.scope }
    ensures ok { OnOk result (book.new ≡ spec.port_declaration names.now book.old written.now) }
    ensures sound { OnOk result (IsSoundScope book.new.scope) }
{
    match written {
        Port::Signal(place, list, mode, indication, default) => {
            let list = list.as_slice();
            let place = first_place(*place, list);
            let access = access_of(*mode);
            signals(alloc, names, access, place, list, indication, default, book)
        }
        Port::Terminal(place, list, nature) => {
            terminals(alloc, names, *place, list.as_slice(), *nature, book)
        }
        Port::Quantity(place, list, mode, indication) => {
            let class = class_of(*mode);
            quantity_ports(
                alloc,
                names,
                class,
                *place,
                list.as_slice(),
                indication,
                book,
            )
        }
    }
}
