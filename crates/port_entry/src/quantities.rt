//! A terminal or quantity port of an instance (IEEE 1076.1, 6.5.6.3 and 6.5.7.3).
ghost use Rattle.std.specs.Prelude.{◌≡◌, OnOk};
ghost use Rattle.unit_meaning.specs.Walk as spec;
ghost use Rattle.expr_types.specs.Known.{IsSoundScope};
ghost use Rattle.generic_entry.specs.Entering.{Enters};
ghost use Rattle.port_entry.specs.Entries.{entry_of};

use crate::entry::{Entry, bind};
use ams_tree::{Mode, Name};
use interface_types::is_out;
use name_scope::{QuantityClass, Thing};
use std::alloc::AllocError;
use unit_meaning::{Actual, Assigned};

/// A terminal port is its actual's terminal.
pub fn enter_terminal(
    assigned: &Option<Assigned>,
    name: Name,
    entry: &mut Entry,
) -> Result<bool, AllocError>
    requires { IsSoundScope entry.old.book.scope }
    ensures entered { Enters (spec.terminal_entered assigned.now name (entry_of entry.old)) result (entry_of entry.new) }
    ensures sound { OnOk result (IsSoundScope entry.new.book.scope) }
{
    let Some(assigned) = assigned else {
        return Ok(false);
    };
    match &assigned.actual {
        Actual::Object(_, thing) => match thing {
            Thing::Terminal(end, nature) => bind(Thing::Terminal(*end, *nature), name, entry),
            _ => Ok(false),
        },
        Actual::Open | Actual::Value(_, _) => Ok(false),
    }
}

/// The quantities that a port of mode out may stand for.
fn is_source(class: QuantityClass) -> bool
    ensures { result ≡ spec.is_source class }
{
    match class {
        QuantityClass::Free | QuantityClass::Through | QuantityClass::PortOut => true,
        QuantityClass::Across | QuantityClass::PortIn => false,
    }
}

fn is_used(outer: u32, quantity: u32, used: &[(u32, u32)]) -> bool
    ensures { result ≡ spec.is_used outer quantity used.now }
{
    used.iter().any(|one| one.0 == outer && one.1 == quantity)
}

/// Binds a port of mode out, whose actual is that of no other one.
fn bind_out(
    outer: u32,
    quantity: u32,
    class: QuantityClass,
    name: Name,
    entry: &mut Entry,
) -> Result<bool, AllocError>
    requires { IsSoundScope entry.old.book.scope }
    ensures entered { Enters (spec.out_bound outer quantity class name (entry_of entry.old)) result (entry_of entry.new) }
    ensures sound { OnOk result (IsSoundScope entry.new.book.scope) }
{
    if is_source(class) && !is_used(outer, quantity, entry.used.as_slice()) {
        entry.used.push((outer, quantity))?;
        bind(
            Thing::Quantity(quantity, QuantityClass::PortOut),
            name,
            entry,
        )
    } else {
        Ok(false)
    }
}

fn bind_quantity(
    outer: u32,
    mode: Option<Mode>,
    thing: &Thing,
    name: Name,
    entry: &mut Entry,
) -> Result<bool, AllocError>
    requires { IsSoundScope entry.old.book.scope }
    ensures entered { Enters (spec.quantity_bound outer mode thing.now name (entry_of entry.old)) result (entry_of entry.new) }
    ensures sound { OnOk result (IsSoundScope entry.new.book.scope) }
{
    match thing {
        Thing::Quantity(quantity, class) => {
            if is_out(mode) {
                bind_out(outer, *quantity, *class, name, entry)
            } else {
                bind(
                    Thing::Quantity(*quantity, QuantityClass::PortIn),
                    name,
                    entry,
                )
            }
        }
        _ => Ok(false),
    }
}

/// A quantity port is its actual's quantity.
pub fn enter_quantity(
    outer: u32,
    mode: Option<Mode>,
    assigned: &Option<Assigned>,
    name: Name,
    entry: &mut Entry,
) -> Result<bool, AllocError>
    requires { IsSoundScope entry.old.book.scope }
    ensures entered { Enters (spec.quantity_entered outer mode assigned.now name (entry_of entry.old)) result (entry_of entry.new) }
    ensures sound { OnOk result (IsSoundScope entry.new.book.scope) }
{
    let Some(assigned) = assigned else {
        return Ok(false);
    };
    match &assigned.actual {
        Actual::Object(_, thing) => bind_quantity(outer, mode, thing, name, entry),
        Actual::Open | Actual::Value(_, _) => Ok(false),
    }
}
