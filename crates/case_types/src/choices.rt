//! Choices of an alternative.
ghost use Rattle.std.specs.Prelude.{◌≡◌, true, not, IfOk, OnOk};
ghost use Rattle.elab_meaning.specs.Parts as parts;
ghost use Rattle.elab_meaning.specs.Parts.{judged};
ghost use Rattle.unit_meaning.specs.Cases as spec;
ghost use Rattle.unit_meaning.specs.Settings.{sealed};
ghost use Rattle.expr_types.specs.Known.{Finds, IsSoundScope};
ghost use Rattle.case_types.specs.Choices.{fine};

use crate::places::place_of;
use crate::seen::add_choice;
use ams_token::Place;
use ams_tree::Choice;
use elab_meaning::{Asked, Context, Notes, Part};
use expr_types::static_value;
use name_scope::{Kind, Scope};
use statement_parts::{Setting, finish};
use std::alloc::{AllocError, Global};
use unit_meaning::Seen;

/// Of two parts, where only whether the first keeps the rules counts.
pub fn beside<A: Drop, B: Drop>(part: Part<A>, other: Part<B>) -> Part<B>
    ensures { result ≡ spec.beside part other }
{
    match part {
        Part::Kept(_) => other,
        Part::Wrong => match other {
            Part::Hidden => Part::Hidden,
            _ => Part::Wrong,
        },
        Part::Hidden => Part::Hidden,
    }
}

/// Adds a value of a choice, where it keeps the rules.
fn chosen(
    kind: &Option<Kind>,
    found: &Option<Asked>,
    seen: &mut Seen,
) -> Result<Part<bool>, AllocError>
    ensures part { IfOk result (λ part. part ≡ judged fine (judged (spec.choosing_value kind.now seen.old) (parts.part_of found.now))) }
    ensures ok { OnOk result (seen.new ≡ spec.seen_or seen.old (judged (spec.choosing_value kind.now seen.old) (parts.part_of found.now))) }
{
    match found {
        Some(found) => add_choice(kind, found, seen),
        None => Ok(Part::Hidden),
    }
}

/// A choice that is a value.
fn value_choice(
    place: Place,
    kind: &Option<Kind>,
    found: &Option<Asked>,
    seen: &mut Seen,
    notes: &mut Notes,
) -> Result<Part<bool>, AllocError>
    ensures found { Finds (let part = judged (spec.choosing_value kind.now seen.old) (parts.part_of found.now) in (parts.closed place part notes.old, judged fine (sealed part))) result notes.new }
    ensures seen { OnOk result (seen.new ≡ spec.seen_or seen.old (judged (spec.choosing_value kind.now seen.old) (parts.part_of found.now))) }
{
    let part = chosen(kind, found, seen)?;
    finish(place, part, notes)
}

fn add_others(seen: &mut Seen) -> Part<bool>
    ensures part { result ≡ judged fine (parts.where_true (not seen.old.others) (record seen.old { others = true })) }
    ensures seen { seen.new ≡ spec.seen_or seen.old (parts.where_true (not seen.old.others) (record seen.old { others = true })) }
{
    if seen.others {
        Part::Wrong
    } else {
        seen.others = true;
        Part::Kept(true)
    }
}

fn one_choice(
    alloc: Global,
    setting: &Setting<'_>,
    scope: &Scope,
    context: Context,
    kind: &Option<Kind>,
    choice: &Choice,
    seen: &mut Seen,
    notes: &mut Notes,
) -> Result<Part<bool>, AllocError>
    requires { IsSoundScope scope.now }
    ensures found { let one = spec.one_choice setting.now scope.now context kind.now seen.old choice.now notes.old in Finds (one.0, judged fine one.1) result notes.new }
    ensures seen { OnOk result (seen.new ≡ spec.seen_or seen.old (spec.one_choice setting.now scope.now context kind.now seen.old choice.now notes.old).1) }
{
    match choice {
        Choice::Value(expr) => {
            match static_value(alloc, setting.names(), scope, context, expr, notes) {
                Ok(found) => value_choice(place_of(expr), kind, &found, seen, notes),
                Err(error) => Err(error),
            }
        }
        Choice::Others(place) => finish(*place, add_others(seen), notes),
    }
}

/// Adds the choices of an alternative, and answers whether all of them keep the rules.
#[tactic(auto, using(crate::proofs::Together::beside_more, crate::proofs::Together::beside_end, crate::proofs::Together::beside_fine))]
pub fn read_choices(
    alloc: Global,
    setting: &Setting<'_>,
    scope: &Scope,
    context: Context,
    kind: &Option<Kind>,
    choices: &[Choice],
    seen: &mut Seen,
    notes: &mut Notes,
) -> Result<Part<bool>, AllocError>
    requires { IsSoundScope scope.now }
    ensures found { let all = spec.choices setting.now scope.now context kind.now seen.old choices.now notes.old in Finds (all.0, all.1.1) result notes.new }
    ensures seen { OnOk result (seen.new ≡ (spec.choices setting.now scope.now context kind.now seen.old choices.now notes.old).1.0) }
{
    let mut fine = Part::Kept(true);
    for choice in choices {
        let one = one_choice(alloc, setting, scope, context, kind, choice, seen, notes)?;
        fine = beside(one, fine);
    }
    Ok(fine)
}
