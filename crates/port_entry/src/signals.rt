//! A signal port of an instance (IEEE 1076, 6.5.6.3 and 6.5.7.3).
ghost use Rattle.std.specs.Prelude.{◌≡◌, ℕ, OnOk, Some, None};
ghost use Rattle.unit_meaning.specs.declared.request.Actual.TheVariants as actual;
ghost use Rattle.unit_meaning.specs.Walk as spec;
ghost use Rattle.expr_types.specs.Known.{IsSoundScope};
ghost use Rattle.generic_entry.specs.Entering.{Enters};
ghost use Rattle.port_entry.specs.Entries.{entry_of};

use crate::entry::{Entry, bind, bind_if};
use ams_token::Names;
use ams_tree::{Mode, Name};
use ams_value::ValueType;
use decl_names::{Entry as Declared, declare, declare_each};
use elab_meaning::{Book, Valued};
use expr_types::same_kind;
use interface_types::{access_of, is_out};
use name_scope::{Kind, Thing};
use std::alloc::{AllocError, Global};
use unit_meaning::{Actual, Assigned};

/// DOMAIN_TYPE, which is enumeration type 0.
const DOMAIN_TYPE: Kind = Kind::Of(ValueType::Enumeration(0));

/// Binds a port of this subtype to its actual, a signal of the same type.
fn bind_valued(
    mode: Option<Mode>,
    valued: &Valued,
    thing: &Thing,
    name: Name,
    entry: &mut Entry,
) -> Result<bool, AllocError>
    requires { IsSoundScope entry.old.book.scope }
    ensures entered { (x : ℕ) → Enters (spec.signal_bound mode (Some valued.now) (actual.Object x thing.now) name (entry_of entry.old)) result (entry_of entry.new) }
    ensures sound { OnOk result (IsSoundScope entry.new.book.scope) }
{
    match thing {
        Thing::Signal(number, subtype, _) => {
            let fits = same_kind(subtype.kind, valued.subtype.kind);
            let port = Thing::Signal(*number, valued.subtype, access_of(mode));
            bind_if(fits, port, name, entry)
        }
        Thing::Domain => {
            let fits = !is_out(mode) && same_kind(valued.subtype.kind, DOMAIN_TYPE);
            bind_if(fits, Thing::Domain, name, entry)
        }
        _ => Ok(false),
    }
}

/// Binds a port whose declaration breaks a rule.
fn bind_faulty(
    mode: Option<Mode>,
    thing: &Thing,
    name: Name,
    entry: &mut Entry,
) -> Result<bool, AllocError>
    requires { IsSoundScope entry.old.book.scope }
    ensures entered { (x : ℕ) → Enters (spec.signal_bound mode None (actual.Object x thing.now) name (entry_of entry.old)) result (entry_of entry.new) }
    ensures sound { OnOk result (IsSoundScope entry.new.book.scope) }
{
    match thing {
        Thing::Signal(_, _, _) => bind(Thing::Faulty, name, entry),
        Thing::Domain => {
            if is_out(mode) {
                Ok(false)
            } else {
                bind(Thing::Faulty, name, entry)
            }
        }
        _ => Ok(false),
    }
}

fn bind_kept(
    mode: Option<Mode>,
    valued: &Valued,
    actual: &Actual,
    name: Name,
    entry: &mut Entry,
) -> Result<bool, AllocError>
    requires { IsSoundScope entry.old.book.scope }
    ensures entered { Enters (spec.signal_bound mode (Some valued.now) actual.now name (entry_of entry.old)) result (entry_of entry.new) }
    ensures sound { OnOk result (IsSoundScope entry.new.book.scope) }
{
    match actual {
        Actual::Object(_, thing) => bind_valued(mode, valued, thing, name, entry),
        Actual::Open | Actual::Value(_, _) => Ok(false),
    }
}

fn bind_hidden(
    mode: Option<Mode>,
    actual: &Actual,
    name: Name,
    entry: &mut Entry,
) -> Result<bool, AllocError>
    requires { IsSoundScope entry.old.book.scope }
    ensures entered { Enters (spec.signal_bound mode None actual.now name (entry_of entry.old)) result (entry_of entry.new) }
    ensures sound { OnOk result (IsSoundScope entry.new.book.scope) }
{
    match actual {
        Actual::Object(_, thing) => bind_faulty(mode, thing, name, entry),
        Actual::Open | Actual::Value(_, _) => Ok(false),
    }
}

/// Binds a signal port to its actual.
fn bind_signal(
    mode: Option<Mode>,
    valued: &Option<Valued>,
    actual: &Actual,
    name: Name,
    entry: &mut Entry,
) -> Result<bool, AllocError>
    requires { IsSoundScope entry.old.book.scope }
    ensures entered { Enters (spec.signal_bound mode valued.now actual.now name (entry_of entry.old)) result (entry_of entry.new) }
    ensures sound { OnOk result (IsSoundScope entry.new.book.scope) }
{
    match valued {
        Some(valued) => bind_kept(mode, valued, actual, name, entry),
        None => bind_hidden(mode, actual, name, entry),
    }
}

/// A port that is left out is a signal of its own.
fn new_signal(
    alloc: Global,
    names: &Names,
    mode: Option<Mode>,
    valued: &Option<Valued>,
    name: Name,
    book: &mut Book,
) -> Result<(), AllocError>
    requires { IsSoundScope book.old.scope }
    ensures ok { OnOk result (book.new ≡ spec.new_port_signal names.now mode valued.now name book.old) }
    ensures sound { OnOk result (IsSoundScope book.new.scope) }
{
    match valued {
        Some(valued) => {
            let signal = Declared::Signal(access_of(mode), *valued);
            declare_each(alloc, names, &signal, &[name], book)
        }
        None => declare(name, Thing::Faulty, book),
    }
}

fn enter_new_signal(
    alloc: Global,
    names: &Names,
    mode: Option<Mode>,
    valued: &Option<Valued>,
    name: Name,
    entry: &mut Entry,
) -> Result<bool, AllocError>
    requires { IsSoundScope entry.old.book.scope }
    ensures entered { Enters (spec.signal_entered names.now mode valued.now None name (entry_of entry.old)) result (entry_of entry.new) }
    ensures sound { OnOk result (IsSoundScope entry.new.book.scope) }
{
    new_signal(alloc, names, mode, valued, name, &mut entry.book)?;
    Ok(true)
}

/// Enters a signal port.
pub fn enter_signal(
    alloc: Global,
    names: &Names,
    mode: Option<Mode>,
    valued: &Option<Valued>,
    assigned: &Option<Assigned>,
    name: Name,
    entry: &mut Entry,
) -> Result<bool, AllocError>
    requires { IsSoundScope entry.old.book.scope }
    ensures entered { Enters (spec.signal_entered names.now mode valued.now assigned.now name (entry_of entry.old)) result (entry_of entry.new) }
    ensures sound { OnOk result (IsSoundScope entry.new.book.scope) }
{
    match assigned {
        Some(assigned) => bind_signal(mode, valued, &assigned.actual, name, entry),
        None => enter_new_signal(alloc, names, mode, valued, name, entry),
    }
}
