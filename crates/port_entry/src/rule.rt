//! The names of a declaration of ports, each of them by one rule.
ghost use Rattle.std.specs.Prelude.{OnOk};
ghost use Rattle.unit_meaning.specs.Walk as spec;
ghost use Rattle.expr_types.specs.Known.{IsSoundScope};
ghost use Rattle.generic_entry.specs.Entering.{Enters};
ghost use Rattle.port_entry.specs.Entries.{entry_of};
ghost use Rattle.port_entry.specs.Rules.{rule_of};

use crate::entry::Entry;
use crate::quantities::{enter_quantity, enter_terminal};
use crate::signals::enter_signal;
use ams_token::Names;
use ams_tree::{Mode, Name};
use elab_meaning::Valued;
use instance_counts::sum_of;
use instance_matches::Matches;
use std::alloc::{AllocError, Global};
use unit_meaning::Assigned;

/// By what rule the names of a declaration of ports are entered.
#[derive(Clone, Copy)]
pub enum Rule {
    /// Signals of a mode, with their subtype and default where the declaration keeps the rules.
    Signal(Option<Mode>, Option<Valued>),
    Terminal,
    /// Quantities of a mode, whose actuals are named in the instance of this number.
    Quantity(u32, Option<Mode>),
}

fn enter_by(
    alloc: Global,
    names: &Names,
    rule: &Rule,
    assigned: &Option<Assigned>,
    name: Name,
    entry: &mut Entry,
) -> Result<bool, AllocError>
    requires { IsSoundScope entry.old.book.scope }
    ensures entered { Enters (rule_of names.now rule.now assigned.now name (entry_of entry.old)) result (entry_of entry.new) }
    ensures sound { OnOk result (IsSoundScope entry.new.book.scope) }
{
    match rule {
        Rule::Signal(mode, valued) => {
            enter_signal(alloc, names, *mode, valued, assigned, name, entry)
        }
        Rule::Terminal => enter_terminal(assigned, name, entry),
        Rule::Quantity(outer, mode) => enter_quantity(*outer, *mode, assigned, name, entry),
    }
}

/// Enters the port at a place of the interface.
fn enter_port_at(
    alloc: Global,
    names: &Names,
    rule: &Rule,
    given: &Matches<'_>,
    place: u32,
    name: Name,
    entry: &mut Entry,
) -> Result<bool, AllocError>
    requires { IsSoundScope entry.old.book.scope }
    ensures entered { Enters (rule_of names.now rule.now (spec.actual_at given.now place) name (entry_of entry.old)) result (entry_of entry.new) }
    ensures sound { OnOk result (IsSoundScope entry.new.book.scope) }
{
    let assigned = given.actual_at(place);
    enter_by(alloc, names, rule, &assigned, name, entry)
}

/// Enters the names of a declaration of ports, the first of which has this place in the interface.
pub fn enter_port_names(
    alloc: Global,
    names: &Names,
    rule: &Rule,
    given: &Matches<'_>,
    first: u32,
    declared: &[Name],
    entry: &mut Entry,
) -> Result<bool, AllocError>
    requires { IsSoundScope entry.old.book.scope }
    ensures entered { Enters (spec.names_entered (rule_of names.now rule.now) given.now first declared.now (entry_of entry.old)) result (entry_of entry.new) }
    ensures sound { OnOk result (IsSoundScope entry.new.book.scope) }
{
    let mut place = first;
    for name in declared {
        if !enter_port_at(alloc, names, rule, given, place, *name, entry)? {
            return Ok(false);
        }
        place = sum_of(place, 1)?;
    }
    Ok(true)
}
