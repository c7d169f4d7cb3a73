//! Where statements stand in their process.
ghost use Rattle.std.specs.Prelude.{◌≡◌, ℕ, IfOk, OnOk};
ghost use Rattle.name_scope.specs.Scopes.{inside, with_name};
ghost use Rattle.name_scope.specs.declared.thing.Thing.TheVariants.{Parameter};
ghost use Rattle.name_scope.specs.declared.scope.Scope.{Scope as Before};
ghost use Rattle.unit_meaning.specs.Sequential as spec;
ghost use Rattle.expr_types.specs.Known.{IsSoundScope};

use ams_tree::Name;
use flat_design::{PathStep, WaitPlace};
use name_scope::{Scope, Thing};
use sqlite_items::Items;
use std::alloc::{AllocError, Global};
use unit_meaning::{Draft, Spot};

fn path_to(
    alloc: Global,
    spot: &Spot,
    statement: u32,
    branch: u32,
) -> Result<Items<PathStep>, AllocError>
    ensures { IfOk result (λ path. path ≡ (spec.way_to spot.now statement branch).path) }
{
    let mut path = Items::from_slice(alloc, spot.path.as_slice())?;
    path.push(PathStep { statement, branch })?;
    Ok(path)
}

fn parameters_of(alloc: Global, spot: &Spot) -> Result<Items<u32>, AllocError>
    ensures { IfOk result (λ parameters. parameters ≡ spot.now.parameters) }
{
    Items::from_slice(alloc, spot.parameters.as_slice())
}

/// Where the statements of a branch stand.
pub fn way_to(alloc: Global, spot: &Spot, statement: u32, branch: u32) -> Result<Spot, AllocError>
    ensures { IfOk result (λ way. way ≡ spec.way_to spot.now statement branch) }
{
    Ok(Spot {
        path: path_to(alloc, spot, statement, branch)?,
        parameters: parameters_of(alloc, spot)?,
        is_in_loop: spot.is_in_loop,
    })
}

/// Where the statements of a loop stand.
pub fn looping(alloc: Global, spot: &Spot, statement: u32) -> Result<Spot, AllocError>
    ensures { IfOk result (λ within. within ≡ spec.looping spot.now statement) }
{
    Ok(Spot {
        path: path_to(alloc, spot, statement, 0)?,
        parameters: parameters_of(alloc, spot)?,
        is_in_loop: true,
    })
}

/// Where the statements of a loop with a parameter stand.
pub fn within_loop(
    alloc: Global,
    spot: &Spot,
    statement: u32,
    parameter: u32,
) -> Result<Spot, AllocError>
    ensures { IfOk result (λ within. within ≡ spec.within_loop spot.now statement parameter) }
{
    let mut within = looping(alloc, spot, statement)?;
    within.parameters.push(parameter)?;
    Ok(within)
}

/// Adds a wait statement.
pub fn add_wait(
    alloc: Global,
    spot: &Spot,
    statement: u32,
    draft: &mut Draft,
) -> Result<(), AllocError>
    ensures { OnOk result (draft.new ≡ spec.with_wait spot.now statement draft.old) }
{
    let place = WaitPlace {
        path: path_to(alloc, spot, statement, 0)?,
        parameters: parameters_of(alloc, spot)?,
    };
    draft.waits.push(place)
}

/// Begins the region of a loop's parameter.
#[tactic(auto, using(crate::proofs::Regions::parameter_sound))]
pub fn enter_loop(
    alloc: Global,
    scope: &mut Scope,
    name: Name,
    parameter: u32,
) -> Result<(), AllocError>
    requires { IsSoundScope scope.old }
    ensures region { OnOk result (scope.new ≡ with_name (inside scope.old) name.number (Parameter parameter)) }
    ensures sound { OnOk result (IsSoundScope scope.new) }
{
    scope.enter(alloc)?;
    scope.declare(name.number, Thing::Parameter(parameter))?;
    Ok(())
}

/// Ends the region of a loop's parameter.
pub fn leave_loop(scope: &mut Scope)
    ensures { (before : Before) → (name parameter : ℕ) → scope.old ≡ with_name (inside before) name (Parameter parameter) → scope.new ≡ before }
{
    scope.leave();
}
