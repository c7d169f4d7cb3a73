//! Attributes of names.
ghost use Rattle.std.specs.Prelude.{◌≡◌, Some, nat_eq, position, IfOk, IfSome, OnOk};
ghost use Rattle.flat_design.specs.Lists.{number_of_dot, number_of_threshold, same_threshold};
ghost use Rattle.elab_meaning.specs.Names as spec;
ghost use Rattle.elab_meaning.specs.Notes as noted;
ghost use Rattle.expr_types.specs.Known.{Finds, IsSound};

use crate::kinds::same_kind;
use crate::names::{read, unknown_name};
use crate::noting::{note_changing, wrong};
use ams_token::Place;
use ams_tree::Name;
use ams_value::{Val, ValueType};
use elab_meaning::{Asked, Context, Notes, StaticValue, Surrounding, Typed};
use fix_core::Fix;
use flat_design::{THRESHOLD_LIMIT, Terminal, Threshold, UNKNOWN_LIMIT};
use flat_expr::{FlatExpr, SignalName, Unknown};
use name_scope::{Kind, Thing};
use std::alloc::AllocError;

fn signal_event(
    context: Context,
    name: Name,
    signal: SignalName,
    notes: &mut Notes,
) -> Result<Option<Typed>, AllocError>
    ensures found { Finds (spec.signal_event context name signal notes.old) result notes.new }
    ensures sound { IfOk result (λ t. IfSome t IsSound) }
{
    let kind = Kind::Of(ValueType::Boolean);
    read(context, name.place, kind, FlatExpr::Event(signal), notes)
}

fn event_at(
    context: Context,
    name: Name,
    thing: &Option<Thing>,
    notes: &mut Notes,
) -> Result<Option<Typed>, AllocError>
    ensures found { Finds (spec.event_at context name thing.now notes.old) result notes.new }
    ensures sound { IfOk result (λ t. IfSome t IsSound) }
{
    match thing {
        None => unknown_name(notes, name),
        Some(Thing::Signal(number, _, _)) => {
            signal_event(context, name, SignalName::Signal(*number), notes)
        }
        Some(Thing::Domain) => signal_event(context, name, SignalName::Domain, notes),
        Some(Thing::Faulty) => Ok(None),
        Some(_) => wrong(notes, name.place),
    }
}

/// A condition of an equation reads no event.
fn no_event(
    name: Name,
    thing: &Option<Thing>,
    notes: &mut Notes,
) -> Result<Option<Typed>, AllocError>
    ensures found { Finds (spec.no_event name thing.now notes.old) result notes.new }
    ensures sound { IfOk result (λ t. IfSome t IsSound) }
{
    match thing {
        None => unknown_name(notes, name),
        Some(Thing::Faulty) => Ok(None),
        Some(_) => wrong(notes, name.place),
    }
}

/// `name'event`.
pub fn event_in(
    context: Context,
    name: Name,
    thing: &Option<Thing>,
    notes: &mut Notes,
) -> Result<Option<Typed>, AllocError>
    ensures found { Finds (spec.event_in context context.surrounding name thing.now notes.old) result notes.new }
    ensures sound { IfOk result (λ t. IfSome t IsSound) }
{
    match context.surrounding {
        Surrounding::Condition => no_event(name, thing, notes),
        _ => event_at(context, name, thing, notes),
    }
}

fn position_of_dot(dots: &[u32], quantity: u32) -> Option<usize>
    ensures { result ≡ position (λ other. nat_eq other quantity) dots.now }
{
    dots.iter().position(|other| *other == quantity)
}

/// The number of the dot of a quantity, or the number of dots where there is none.
fn number_of_dot(dots: &[u32], quantity: u32) -> usize
    ensures { result ≡ number_of_dot quantity dots.now }
{
    match position_of_dot(dots, quantity) {
        Some(place) => place,
        None => dots.len(),
    }
}

/// The number of the dot of a quantity, which is added where there is none like it yet.
#[tactic(auto, unfolding(elab_meaning::specs::Notes::dotted))]
fn add_dot(quantity: u32, notes: &mut Notes) -> Result<u32, AllocError>
    ensures number { IfOk result (λ number. number ≡ number_of_dot quantity notes.old.dots) }
    ensures ok { OnOk result (notes.new ≡ noted.dotted quantity notes.old) }
{
    let place = number_of_dot(notes.dots.as_slice(), quantity);
    let Ok(number) = u32::try_from(place) else {
        return Err(AllocError);
    };
    if notes.dots.len() <= UNKNOWN_LIMIT && place == notes.dots.len() {
        notes.dots.push(quantity)?;
    }
    Ok(number)
}

#[tactic(auto, unfolding(elab_meaning::specs::Names::dot))]
fn dot(
    context: Context,
    name: Name,
    quantity: u32,
    notes: &mut Notes,
) -> Result<Option<Typed>, AllocError>
    ensures found { Finds (spec.dot context name quantity notes.old) result notes.new }
    ensures sound { IfOk result (λ t. IfSome t IsSound) }
{
    note_changing(context, name.place, notes)?;
    let number = add_dot(quantity, notes)?;
    Ok(Some(Typed {
        place: name.place,
        kind: Kind::Of(ValueType::Real),
        expr: FlatExpr::Unknown(Unknown::Dot(number)),
        value: StaticValue::Changing,
    }))
}

/// `name'dot`.
pub fn dot_at(
    context: Context,
    name: Name,
    thing: &Option<Thing>,
    notes: &mut Notes,
) -> Result<Option<Typed>, AllocError>
    ensures found { Finds (spec.dot_at context name thing.now notes.old) result notes.new }
    ensures sound { IfOk result (λ t. IfSome t IsSound) }
{
    match thing {
        None => unknown_name(notes, name),
        Some(Thing::Quantity(quantity, _)) => dot(context, name, *quantity, notes),
        Some(Thing::Faulty) => Ok(None),
        Some(_) => wrong(notes, name.place),
    }
}

/// `name'reference`.
pub fn reference_at(
    context: Context,
    name: Name,
    thing: &Option<Thing>,
    notes: &mut Notes,
) -> Result<Option<Typed>, AllocError>
    ensures found { Finds (spec.reference_at context name thing.now notes.old) result notes.new }
    ensures sound { IfOk result (λ t. IfSome t IsSound) }
{
    let kind = Kind::Of(ValueType::Real);
    match thing {
        None => unknown_name(notes, name),
        Some(Thing::Terminal(Terminal::Node(number), _)) => {
            let expr = FlatExpr::Unknown(Unknown::Reference(*number));
            read(context, name.place, kind, expr, notes)
        }
        Some(Thing::Terminal(Terminal::Reference, _)) => {
            let expr = FlatExpr::Literal(Val::Real(Fix::exactly(0)));
            read(context, name.place, kind, expr, notes)
        }
        Some(Thing::Faulty) => Ok(None),
        Some(_) => wrong(notes, name.place),
    }
}

fn position_of_threshold(thresholds: &[Threshold], threshold: &Threshold) -> Option<usize>
    ensures { result ≡ position (λ other. same_threshold other threshold.now) thresholds.now }
{
    thresholds.iter().position(|other| other == threshold)
}

fn number_of_threshold(thresholds: &[Threshold], threshold: &Threshold) -> usize
    ensures { result ≡ number_of_threshold threshold.now thresholds.now }
{
    match position_of_threshold(thresholds, threshold) {
        Some(place) => place,
        None => thresholds.len(),
    }
}

/// The number of a threshold, which is added where there is none like it yet.
#[tactic(auto, unfolding(elab_meaning::specs::Notes::watched))]
fn add_threshold(threshold: Threshold, notes: &mut Notes) -> Result<u32, AllocError>
    ensures number { IfOk result (λ number. number ≡ number_of_threshold threshold notes.old.thresholds) }
    ensures ok { OnOk result (notes.new ≡ noted.watched threshold notes.old) }
{
    let place = number_of_threshold(notes.thresholds.as_slice(), &threshold);
    let Ok(number) = u32::try_from(place) else {
        return Err(AllocError);
    };
    if notes.thresholds.len() <= THRESHOLD_LIMIT && place == notes.thresholds.len() {
        notes.thresholds.push(threshold)?;
    }
    Ok(number)
}

/// The level of a threshold; any one where it isn't known here.
fn level_of(value: &Option<Val>) -> Fix
    ensures { result ≡ spec.level_of value.now }
{
    match value {
        Some(Val::Real(level)) => *level,
        _ => Fix::exactly(0),
    }
}

#[tactic(auto, unfolding(elab_meaning::specs::Names::above))]
fn above(
    place: Place,
    quantity: u32,
    level: &Option<Val>,
    notes: &mut Notes,
) -> Result<Option<Typed>, AllocError>
    ensures found { Finds (spec.above place (record { quantity = quantity; level = spec.level_of level.now }) notes.old) result notes.new }
    ensures sound { IfOk result (λ t. IfSome t IsSound) }
{
    let threshold = Threshold {
        quantity,
        level: level_of(level),
    };
    let number = add_threshold(threshold, notes)?;
    Ok(Some(Typed {
        place,
        kind: Kind::Of(ValueType::Boolean),
        expr: FlatExpr::Signal(SignalName::Threshold(number), ValueType::Boolean),
        value: StaticValue::Changing,
    }))
}

fn above_level(
    name: Name,
    thing: &Thing,
    level: &Asked,
    notes: &mut Notes,
) -> Result<Option<Typed>, AllocError>
    ensures found { Finds (spec.above_at name (Some thing.now) (Some level.now) notes.old) result notes.new }
    ensures sound { IfOk result (λ t. IfSome t IsSound) }
{
    match thing {
        Thing::Quantity(quantity, _) => {
            if same_kind(level.kind, Kind::Of(ValueType::Real)) {
                above(name.place, *quantity, &level.value, notes)
            } else {
                wrong(notes, name.place)
            }
        }
        Thing::Faulty => Ok(None),
        _ => wrong(notes, name.place),
    }
}

/// `name'above(level)`.
pub fn above_at(
    name: Name,
    thing: &Option<Thing>,
    level: &Option<Asked>,
    notes: &mut Notes,
) -> Result<Option<Typed>, AllocError>
    ensures found { Finds (spec.above_at name thing.now level.now notes.old) result notes.new }
    ensures sound { IfOk result (λ t. IfSome t IsSound) }
{
    match thing {
        None => unknown_name(notes, name),
        Some(thing) => match level {
            Some(level) => above_level(name, thing, level, notes),
            None => Ok(None),
        },
    }
}

/// `name'ramp`, which has no meaning yet.
pub fn ramp_at(
    name: Name,
    thing: &Option<Thing>,
    fine: bool,
    notes: &mut Notes,
) -> Result<Option<Typed>, AllocError>
    ensures found { Finds (spec.ramp_at name thing.now fine notes.old) result notes.new }
    ensures sound { IfOk result (λ t. IfSome t IsSound) }
{
    match thing {
        None => unknown_name(notes, name),
        Some(Thing::Faulty) => Ok(None),
        Some(_) => {
            if fine {
                wrong(notes, name.place)
            } else {
                Ok(None)
            }
        }
    }
}
