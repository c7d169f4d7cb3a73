//! What a draft gains.
ghost use Rattle.std.specs.Prelude.{◌≡◌, ◌+◌, nat_eq, IfOk, OnOk};
ghost use Rattle.std.specs.List.{list_any};
ghost use Rattle.unit_meaning.specs.Sequential as spec;

use ams_tree::Name;
use ams_value::{Val, ValueType};
use elab_meaning::Part;
use expr_types::text_of;
use flat_design::Variable;
use flat_expr::Constraint;
use name_scope::Subtype;
use sqlite_items::Items;
use statement_parts::Setting;
use std::alloc::{AllocError, Global};
use unit_meaning::Draft;

/// A count as a number of the flat design.
pub fn number_of(count: usize) -> Result<u32, AllocError>
    ensures { IfOk result (λ number. number ≡ count) }
{
    let Ok(number) = u32::try_from(count) else {
        return Err(AllocError);
    };
    Ok(number)
}

/// The number behind this one.
pub fn following(number: u32) -> Result<u32, AllocError>
    ensures { IfOk result (λ next. next ≡ number + 1) }
{
    if number < u32::MAX {
        Ok(number + 1)
    } else {
        Err(AllocError)
    }
}

fn is_driven(signal: u32, drivers: &[u32]) -> bool
    ensures { result ≡ list_any (nat_eq signal) drivers.now }
{
    drivers.iter().any(|other| signal == *other)
}

/// Adds a signal that the process assigns, once.
pub fn add_driver(draft: &mut Draft, signal: u32) -> Result<(), AllocError>
    ensures { OnOk result (draft.new ≡ spec.with_driver signal draft.old) }
{
    if is_driven(signal, draft.drivers.as_slice()) {
        Ok(())
    } else {
        draft.drivers.push(signal)
    }
}

/// Adds the signal of a target, where it may be assigned.
pub fn add_drivers(draft: &mut Draft, to: &Part<(u32, Subtype)>) -> Result<(), AllocError>
    ensures { OnOk result (draft.new ≡ spec.driving to.now draft.old) }
{
    match to {
        Part::Kept((signal, _)) => add_driver(draft, *signal),
        _ => Ok(()),
    }
}

/// Adds the parameter of a loop.
pub fn add_parameter(
    alloc: Global,
    setting: &Setting<'_>,
    name: Name,
    draft: &mut Draft,
) -> Result<(), AllocError>
    ensures { OnOk result (draft.new ≡ spec.with_parameter setting.now.texts name draft.old) }
{
    let text = Items::from_slice(alloc, text_of(setting.names(), name.number).as_bytes())?;
    draft.variables.push(Variable {
        name: text,
        kind: ValueType::Integer,
        constraint: Constraint::Whole,
        initial: Val::Int(0),
        is_parameter: true,
    })
}
