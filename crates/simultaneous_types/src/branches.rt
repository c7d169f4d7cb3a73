//! Simultaneous if statements (IEEE 1076.1, 15.2).
ghost use Rattle.std.specs.Prelude.{◌≡◌};
ghost use Rattle.elab_meaning.specs.Parts as parts;
ghost use Rattle.unit_meaning.specs.Settings.{finished, listed};
ghost use Rattle.unit_meaning.specs.Simultaneous as spec;
ghost use Rattle.expr_types.specs.Known.{Finds, IsSoundScope};

use ams_token::Place;
use ams_tree::{Equation as Written, SimultaneousBranch};
use ams_value::ValueType;
use elab_meaning::{Notes, Part};
use equation_types::{CHOOSING, compare, first_length, if_lengths, pairs};
use flat_design::{Choice, Equation, IfArm, Pair, Selection};
use flat_expr::FlatExpr;
use held_value::Held;
use name_scope::{Kind, Scope};
use sqlite_items::Items;
use statement_parts::{Setting, both, finish, must_be, put};
use std::alloc::{AllocError, Global};

fn arm_of(condition: Part<FlatExpr>, pairs: Part<Items<Pair>>) -> Part<IfArm>
    ensures { result ≡ parts.both spec.arm_of condition pairs }
{
    match both(condition, pairs) {
        Part::Kept((condition, pairs)) => Part::Kept(IfArm { condition, pairs }),
        Part::Wrong => Part::Wrong,
        Part::Hidden => Part::Hidden,
    }
}

fn if_arm(
    alloc: Global,
    setting: &Setting<'_>,
    scope: &Scope,
    branch: &SimultaneousBranch,
    notes: &mut Notes,
) -> Result<Part<IfArm>, AllocError>
    requires { IsSoundScope scope.now }
    ensures { Finds (spec.if_arm setting.now scope.now branch.now notes.old) result notes.new }
{
    let kind = Kind::Of(ValueType::Boolean);
    let written = &branch.condition;
    let condition = Held::new(must_be(alloc, setting, scope, CHOOSING, kind, written, notes)?);
    let pairs = pairs(alloc, setting, scope, branch.equations.as_slice(), notes)?;
    Ok(arm_of(condition.into_inner(), pairs))
}

#[tactic(auto, using(statement_parts::proofs::Puts::put_ahead, statement_parts::proofs::Puts::put_none, statement_parts::proofs::Puts::put_first))]
fn if_arms(
    alloc: Global,
    setting: &Setting<'_>,
    scope: &Scope,
    branches: &[SimultaneousBranch],
    notes: &mut Notes,
) -> Result<Part<Items<IfArm>>, AllocError>
    requires { IsSoundScope scope.now }
    ensures { Finds (listed (spec.if_arm setting.now scope.now) branches.now notes.old) result notes.new }
{
    let mut all = Part::Kept(Items::new(alloc));
    for branch in branches {
        let one = if_arm(alloc, setting, scope, branch, notes)?;
        all = put(all, one)?;
    }
    Ok(all)
}

/// The equations behind `else`, which must be there.
fn last_arm(
    alloc: Global,
    setting: &Setting<'_>,
    scope: &Scope,
    last: &Option<Items<Written>>,
    notes: &mut Notes,
) -> Result<Part<Items<Pair>>, AllocError>
    requires { IsSoundScope scope.now }
    ensures { Finds (spec.last_arm setting.now scope.now last.now notes.old) result notes.new }
{
    match last {
        Some(last) => pairs(alloc, setting, scope, last.as_slice(), notes),
        None => Ok(Part::Wrong),
    }
}

fn chosen_if(size: u32, arms: Part<Items<IfArm>>, last: Part<Items<Pair>>) -> Part<Equation>
    ensures { result ≡ parts.both (spec.chosen_if size) arms last }
{
    match both(arms, last) {
        Part::Kept((arms, last)) => {
            let selection = Selection::If(arms, last);
            Part::Kept(Equation::Choice(Choice { selection, size }))
        }
        Part::Wrong => Part::Wrong,
        Part::Hidden => Part::Hidden,
    }
}

/// Notes branches of different lengths, and a statement that breaks a rule itself.
fn finish_if(
    place: Place,
    lengths: &[usize],
    arms: Part<Items<IfArm>>,
    last: Part<Items<Pair>>,
    notes: &mut Notes,
) -> Result<Part<Equation>, AllocError>
    ensures { Finds (finished place (spec.compared place lengths.now notes.old, parts.both (spec.chosen_if (spec.first_length lengths.now)) arms last)) result notes.new }
{
    let arms = Held::new(arms);
    let last = Held::new(last);
    compare(place, lengths, notes)?;
    let Ok(size) = u32::try_from(first_length(lengths)) else {
        return Err(AllocError);
    };
    finish(
        place,
        chosen_if(size, arms.into_inner(), last.into_inner()),
        notes,
    )
}

/// A simultaneous if.
pub fn if_statement(
    alloc: Global,
    setting: &Setting<'_>,
    scope: &Scope,
    place: Place,
    branches: &[SimultaneousBranch],
    last: &Option<Items<Written>>,
    notes: &mut Notes,
) -> Result<Part<Equation>, AllocError>
    requires { IsSoundScope scope.now }
    ensures { Finds (spec.if_statement setting.now scope.now place branches.now last.now notes.old) result notes.new }
{
    let arms = Held::new(if_arms(alloc, setting, scope, branches, notes)?);
    let rest = Held::new(last_arm(alloc, setting, scope, last, notes)?);
    let lengths = if_lengths(alloc, branches, last)?;
    finish_if(
        place,
        lengths.as_slice(),
        arms.into_inner(),
        rest.into_inner(),
        notes,
    )
}
