//! The ports of an instance.
ghost use Rattle.std.specs.Prelude.{◌≡◌, OnOk};
ghost use Rattle.elab_meaning.specs.Declarations.{nature_named};
ghost use Rattle.elab_meaning.specs.Parts.{kept};
ghost use Rattle.elab_meaning.specs.Subtypes.{valued};
ghost use Rattle.unit_meaning.specs.Interfaces.{first_place, quantity_subtype};
ghost use Rattle.unit_meaning.specs.Walk as spec;
ghost use Rattle.expr_types.specs.Known.{IsSoundScope};
ghost use Rattle.generic_entry.specs.Entering.{Enters};
ghost use Rattle.port_entry.specs.Entries.{entry_of};

use crate::entry::Entry;
use crate::rule::{Rule, enter_port_names};
use ams_token::{Names, Place};
use ams_tree::{Expr, Mode, Name, Port, SubtypeIndication};
use decl_types::nature_named;
use elab_meaning::{Part, Valued};
use generic_entry::kept;
use instance_counts::sum_of;
use instance_matches::{Matches, port_names};
use interface_types::{first_place, quantity_subtype};
use std::alloc::{AllocError, Global};
use subtype_types::{close, valued};

fn enter_judged_signals(
    alloc: Global,
    names: &Names,
    given: &Matches<'_>,
    first: u32,
    place: Option<Place>,
    declared: &[Name],
    mode: Option<Mode>,
    part: &Part<Valued>,
    entry: &mut Entry,
) -> Result<bool, AllocError>
    requires { IsSoundScope entry.old.book.scope }
    ensures entered { Enters (spec.names_entered (spec.signal_entered names.now mode (kept part.now)) given.now first declared.now (spec.judged_entry (first_place place declared.now) (entry.old.book.notes, part.now) (entry_of entry.old))) result (entry_of entry.new) }
    ensures sound { OnOk result (IsSoundScope entry.new.book.scope) }
{
    let place = first_place(place, declared);
    close(place, part, &mut entry.book.notes)?;
    let rule = Rule::Signal(mode, kept(part));
    enter_port_names(alloc, names, &rule, given, first, declared, entry)
}

/// Enters a declaration of signal ports.
fn enter_signals(
    alloc: Global,
    names: &Names,
    given: &Matches<'_>,
    first: u32,
    place: Option<Place>,
    declared: &[Name],
    mode: Option<Mode>,
    indication: &SubtypeIndication,
    default: &Option<Expr>,
    entry: &mut Entry,
) -> Result<bool, AllocError>
    requires { IsSoundScope entry.old.book.scope }
    ensures entered { let d = valued names.now entry.old.book.scope indication.now default.now entry.old.book.notes in Enters (spec.names_entered (spec.signal_entered names.now mode (kept d.1)) given.now first declared.now (spec.judged_entry (first_place place declared.now) d (entry_of entry.old))) result (entry_of entry.new) }
    ensures sound { OnOk result (IsSoundScope entry.new.book.scope) }
{
    let book = &mut entry.book;
    match valued(
        alloc,
        names,
        &book.scope,
        indication,
        default,
        &mut book.notes,
    ) {
        Ok(part) => {
            enter_judged_signals(
                alloc, names, given, first, place, declared, mode, &part, entry,
            )
        }
        Err(error) => Err(error),
    }
}

/// Enters a declaration of terminal ports.
fn enter_terminals(
    alloc: Global,
    names: &Names,
    given: &Matches<'_>,
    first: u32,
    place: Place,
    declared: &[Name],
    nature: Name,
    entry: &mut Entry,
) -> Result<bool, AllocError>
    requires { IsSoundScope entry.old.book.scope }
    ensures entered { Enters (spec.names_entered spec.terminal_entered given.now first declared.now (spec.judged_entry place (nature_named nature entry.old.book) (entry_of entry.old))) result (entry_of entry.new) }
    ensures sound { OnOk result (IsSoundScope entry.new.book.scope) }
{
    let part = nature_named(nature, &mut entry.book)?;
    close(place, &part, &mut entry.book.notes)?;
    enter_port_names(alloc, names, &Rule::Terminal, given, first, declared, entry)
}

/// Reads the subtype of quantity ports, and notes one that breaks a rule.
fn judge_quantities(
    alloc: Global,
    names: &Names,
    place: Place,
    indication: &SubtypeIndication,
    entry: &mut Entry,
) -> Result<(), AllocError>
    requires { IsSoundScope entry.old.book.scope }
    ensures entered { OnOk result (entry_of entry.new ≡ spec.judged_entry place (quantity_subtype names.now indication.now entry.old.book) (entry_of entry.old)) }
    ensures sound { OnOk result (IsSoundScope entry.new.book.scope) }
{
    match quantity_subtype(alloc, names, indication, &mut entry.book) {
        Ok(part) => close(place, &part, &mut entry.book.notes),
        Err(error) => Err(error),
    }
}

/// Enters a declaration of quantity ports, whose actuals are named in the instance of the number `outer`.
fn enter_quantities(
    alloc: Global,
    names: &Names,
    outer: u32,
    given: &Matches<'_>,
    first: u32,
    place: Place,
    declared: &[Name],
    mode: Option<Mode>,
    indication: &SubtypeIndication,
    entry: &mut Entry,
) -> Result<bool, AllocError>
    requires { IsSoundScope entry.old.book.scope }
    ensures entered { Enters (spec.names_entered (spec.quantity_entered outer mode) given.now first declared.now (spec.judged_entry place (quantity_subtype names.now indication.now entry.old.book) (entry_of entry.old))) result (entry_of entry.new) }
    ensures sound { OnOk result (IsSoundScope entry.new.book.scope) }
{
    judge_quantities(alloc, names, place, indication, entry)?;
    let rule = Rule::Quantity(outer, mode);
    enter_port_names(alloc, names, &rule, given, first, declared, entry)
}

/// Enters a declaration of ports, the first of which has this place in the interface.
fn enter_port(
    alloc: Global,
    names: &Names,
    outer: u32,
    given: &Matches<'_>,
    first: u32,
    port: &Port,
    entry: &mut Entry,
) -> Result<bool, AllocError>
    requires { IsSoundScope entry.old.book.scope }
    ensures entered { Enters (spec.port_entered names.now outer given.now first port.now (entry_of entry.old)) result (entry_of entry.new) }
    ensures sound { OnOk result (IsSoundScope entry.new.book.scope) }
{
    match port {
        Port::Signal(place, list, mode, indication, default) => {
            let list = list.as_slice();
            enter_signals(
                alloc, names, given, first, *place, list, *mode, indication, default, entry,
            )
        }
        Port::Terminal(place, list, nature) => {
            let list = list.as_slice();
            enter_terminals(alloc, names, given, first, *place, list, *nature, entry)
        }
        Port::Quantity(place, list, mode, indication) => {
            let list = list.as_slice();
            enter_quantities(
                alloc, names, outer, given, first, *place, list, *mode, indication, entry,
            )
        }
    }
}

/// Enters the ports of an entity, and answers whether the associations fit.
pub fn enter_ports(
    alloc: Global,
    names: &Names,
    outer: u32,
    given: &Matches<'_>,
    ports: &[Port],
    entry: &mut Entry,
) -> Result<bool, AllocError>
    requires { IsSoundScope entry.old.book.scope }
    ensures entered { Enters (spec.ports_entered names.now outer given.now 0 ports.now (entry_of entry.old)) result (entry_of entry.new) }
    ensures sound { OnOk result (IsSoundScope entry.new.book.scope) }
{
    let mut place = 0;
    for port in ports {
        if !enter_port(alloc, names, outer, given, place, port, entry)? {
            return Ok(false);
        }
        place = sum_of(place, port_names(port).len())?;
    }
    Ok(true)
}
