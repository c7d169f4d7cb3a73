//! Thresholds that are waited for.
ghost use Rattle.std.specs.Prelude.{◌≡◌, position, IfOk, OnOk};
ghost use Rattle.flat_design.specs.Lists.{number_of_threshold, same_threshold};
ghost use Rattle.elab_meaning.specs.Names as names;
ghost use Rattle.elab_meaning.specs.Notes.{watched};
ghost use Rattle.elab_meaning.specs.Parts.{both, part_of};
ghost use Rattle.unit_meaning.specs.Bare as spec;
ghost use Rattle.expr_types.specs.Known.{Finds};

use ams_value::{Val, ValueType};
use elab_meaning::{Asked, Notes, Part};
use expr_types::same_kind;
use fix_core::Fix;
use flat_design::{THRESHOLD_LIMIT, Threshold};
use flat_expr::SignalName;
use name_scope::{Kind, Thing};
use std::alloc::AllocError;

fn position_of_threshold(thresholds: &[Threshold], threshold: &Threshold) -> Option<usize>
    ensures { result ≡ position (λ other. same_threshold other threshold.now) thresholds.now }
{
    thresholds.iter().position(|other| other == threshold)
}

fn number_of_threshold(thresholds: &[Threshold], threshold: &Threshold) -> usize
    ensures { result ≡ number_of_threshold threshold.now thresholds.now }
{
    match position_of_threshold(thresholds, threshold) {
        Some(place) => place,
        None => thresholds.len(),
    }
}

/// The number of a threshold, which is added where there is none like it yet.
#[tactic(auto, unfolding(elab_meaning::specs::Notes::watched))]
fn add_threshold(threshold: Threshold, notes: &mut Notes) -> Result<u32, AllocError>
    ensures number { IfOk result (λ number. number ≡ number_of_threshold threshold notes.old.thresholds) }
    ensures ok { OnOk result (notes.new ≡ watched threshold notes.old) }
{
    let place = number_of_threshold(notes.thresholds.as_slice(), &threshold);
    let Ok(number) = u32::try_from(place) else {
        return Err(AllocError);
    };
    if notes.thresholds.len() <= THRESHOLD_LIMIT && place == notes.thresholds.len() {
        notes.thresholds.push(threshold)?;
    }
    Ok(number)
}

/// The level of a threshold; any one where it isn't known here.
fn level_of(value: &Option<Val>) -> Fix
    ensures { result ≡ names.level_of value.now }
{
    match value {
        Some(Val::Real(level)) => *level,
        _ => Fix::exactly(0),
    }
}

fn level_at(thing: &Thing, level: &Asked) -> Part<Threshold>
    ensures { result ≡ spec.level_at thing.now level.now }
{
    let Thing::Quantity(quantity, _) = thing else {
        return Part::Wrong;
    };
    if same_kind(level.kind, Kind::Of(ValueType::Real)) {
        Part::Kept(Threshold {
            quantity: *quantity,
            level: level_of(&level.value),
        })
    } else {
        Part::Wrong
    }
}

fn threshold_of(found: &Part<Thing>, level: &Option<Asked>) -> Part<Threshold>
    ensures { result ≡ both spec.level_at found.now (part_of level.now) }
{
    let Some(level) = level else {
        return Part::Hidden;
    };
    match found {
        Part::Kept(thing) => level_at(thing, level),
        Part::Wrong => Part::Wrong,
        Part::Hidden => Part::Hidden,
    }
}

/// A threshold of what a name stands for, with its level.
pub fn threshold_at(
    found: &Part<Thing>,
    level: &Option<Asked>,
    notes: &mut Notes,
) -> Result<Part<SignalName>, AllocError>
    ensures { Finds (spec.threshold_at (both spec.level_at found.now (part_of level.now)) notes.old) result notes.new }
{
    match threshold_of(found, level) {
        Part::Kept(threshold) => {
            let number = add_threshold(threshold, notes)?;
            Ok(Part::Kept(SignalName::Threshold(number)))
        }
        Part::Wrong => Ok(Part::Wrong),
        Part::Hidden => Ok(Part::Hidden),
    }
}
