//! Simple simultaneous statements (IEEE 1076.1, 15.1).
ghost use Rattle.std.specs.Prelude.{◌≡◌, ◌&&◌};
ghost use Rattle.elab_meaning.specs.Parts as parts;
ghost use Rattle.unit_meaning.specs.Simultaneous as spec;
ghost use Rattle.expr_types.specs.Known.{Finds, IsSoundScope};

use ams_tree::Equation as Written;
use ams_value::ValueType;
use case_types::place_of;
use elab_meaning::{Context, Notes, Part, Surrounding, Typed};
use expr_types::same_kind;
use flat_design::{Equation, Pair};
use held_value::Held;
use name_scope::{Kind, Scope};
use sqlite_items::Items;
use statement_parts::{Setting, both, finish, put, typed};
use std::alloc::{AllocError, Global};

/// In an equation.
pub const EQUATING: Context = Context {
    surrounding: Surrounding::Equation,
    is_static: false,
};

/// In a condition of equations.
pub const CHOOSING: Context = Context {
    surrounding: Surrounding::Condition,
    is_static: false,
};

fn real_pair(left: Typed, right: Typed) -> Part<Pair>
    ensures { result ≡ spec.pair_of left right }
{
    let real = Kind::Of(ValueType::Real);
    if same_kind(left.kind, real) && same_kind(right.kind, real) {
        Part::Kept(Pair {
            left: left.expr,
            right: right.expr,
        })
    } else {
        drop(left);
        drop(right);
        Part::Wrong
    }
}

#[tactic(auto, using(crate::proofs::Kept::both_kept))]
fn pair_of(left: Part<Typed>, right: Part<Typed>) -> Part<Pair>
    ensures { result ≡ parts.both spec.pair_of left right }
{
    match both(left, right) {
        Part::Kept((left, right)) => real_pair(left, right),
        Part::Wrong => Part::Wrong,
        Part::Hidden => Part::Hidden,
    }
}

fn pair(
    alloc: Global,
    setting: &Setting<'_>,
    scope: &Scope,
    equation: &Written,
    notes: &mut Notes,
) -> Result<Part<Pair>, AllocError>
    requires { IsSoundScope scope.now }
    ensures { Finds (spec.pair setting.now scope.now equation.now notes.old) result notes.new }
{
    let left = Held::new(typed(alloc, setting, scope, EQUATING, &equation.left, notes)?);
    let right = typed(alloc, setting, scope, EQUATING, &equation.right, notes)?;
    finish(
        place_of(&equation.left),
        pair_of(left.into_inner(), right),
        notes,
    )
}

/// Equations in their order.
#[tactic(auto, using(statement_parts::proofs::Puts::put_ahead, statement_parts::proofs::Puts::put_none, statement_parts::proofs::Puts::put_first))]
pub fn pairs(
    alloc: Global,
    setting: &Setting<'_>,
    scope: &Scope,
    equations: &[Written],
    notes: &mut Notes,
) -> Result<Part<Items<Pair>>, AllocError>
    requires { IsSoundScope scope.now }
    ensures { Finds (spec.pairs setting.now scope.now equations.now notes.old) result notes.new }
{
    let mut all = Part::Kept(Items::new(alloc));
    for equation in equations {
        let one = pair(alloc, setting, scope, equation, notes)?;
        all = put(all, one)?;
    }
    Ok(all)
}

/// An equation that is a statement.
pub fn simple(
    alloc: Global,
    setting: &Setting<'_>,
    scope: &Scope,
    equation: &Written,
    notes: &mut Notes,
) -> Result<Part<Equation>, AllocError>
    requires { IsSoundScope scope.now }
    ensures { Finds (spec.simple setting.now scope.now equation.now notes.old) result notes.new }
{
    match pair(alloc, setting, scope, equation, notes)? {
        Part::Kept(pair) => Ok(Part::Kept(Equation::Pair(pair))),
        Part::Wrong => Ok(Part::Wrong),
        Part::Hidden => Ok(Part::Hidden),
    }
}
