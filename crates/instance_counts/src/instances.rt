//! An instance among those of the flat design, with the two numbers of its solvability count (IEEE 1076.1, solvability).
ghost use Rattle.std.specs.Prelude.{◌≡◌, IfOk, OnOk};
ghost use Rattle.unit_meaning.specs.Walk as spec;
ghost use Rattle.instance_counts.specs.Fewer.{fewer};

use crate::counts::{equations_of, out_count, quantity_count, sum_of};
use ams_tree::{Architecture, Entity};
use flat_design::{Instance, Objects};
use sqlite_items::Items;
use std::alloc::{AllocError, Global};
use unit_meaning::Request;

/// The instance that stands at a request.
pub fn instance_of(
    alloc: Global,
    request: &Request,
    entity: &Entity,
    architecture: &Architecture,
) -> Result<Instance, AllocError>
    ensures { IfOk result (λ instance. instance ≡ spec.instance_of request.now entity.now architecture.now) }
{
    let equations = equations_of(architecture.statements.as_slice())?;
    let quantities = quantity_count(architecture.declarations.as_slice())?;
    let ports = out_count(entity.ports.as_slice())?;
    let unknowns = sum_of(quantities, ports as usize)?;
    let path = Items::from_slice(alloc, request.path.as_slice())?;
    Ok(Instance {
        path,
        equations,
        unknowns,
    })
}

/// An instance with so many unknowns less.
fn with_fewer(alloc: Global, instance: &Instance, count: u32) -> Result<Instance, AllocError>
    ensures { IfOk result (λ it. it ≡ fewer count instance.now) }
{
    Ok(Instance {
        path: Items::from_slice(alloc, instance.path.as_slice())?,
        equations: instance.equations,
        unknowns: instance.unknowns.saturating_sub(count),
    })
}

/// Counts so many quantities no more in an instance: they are actuals of ports of mode out.
#[tactic(auto, using(crate::proofs::Lessened::nowhere))]
fn lessen(
    alloc: Global,
    outer: u32,
    count: u32,
    instances: &mut Items<Instance>,
) -> Result<(), AllocError>
    ensures { OnOk result (instances.new ≡ spec.lessened outer count instances.old) }
{
    let outer = outer as usize;
    let Some(instance) = instances.get(outer) else {
        return Ok(());
    };
    let fewer = with_fewer(alloc, instance, count)?;
    instances.set(outer, fewer);
    Ok(())
}

/// Puts the instance that stands at a request behind the others. The instance round it has no longer as unknowns what is
/// the actual of a port of mode out.
pub fn with_instance(
    alloc: Global,
    request: &Request,
    entity: &Entity,
    architecture: &Architecture,
    objects: &mut Objects,
) -> Result<(), AllocError>
    ensures { OnOk result (objects.new ≡ spec.with_instance request.now entity.now architecture.now objects.old) }
{
    let instance = instance_of(alloc, request, entity, architecture)?;
    let count = out_count(entity.ports.as_slice())?;
    lessen(alloc, request.outer, count, &mut objects.instances)?;
    objects.instances.push(instance)
}
