//! The unknowns in their order.
ghost use Rattle.std.specs.Prelude.{◌≡◌, ◌<◌, length, map, IfOk};
ghost use Rattle.std.specs.List.{range_with_len};
ghost use Rattle.flat_expr.specs.declared.expr.Unknown.TheVariants.{Quantity, Reference, Dot};
ghost use Rattle.flat_design.specs.Order.{unknowns};
ghost use Rattle.design_rules.specs.Design.{IsDesign};

use flat_design::Flat;
use flat_expr::Unknown;
use sqlite_items::Items;
use std::alloc::{AllocError, Global};

fn quantities(alloc: Global, count: u32) -> Result<Vec<Unknown>, AllocError>
    ensures { IfOk result (λ unknowns. unknowns.items ≡ map Quantity (range_with_len 0 count)) }
{
    (0..count).map(|i| Unknown::Quantity(i)).collect(alloc)
}

fn references(alloc: Global, count: u32) -> Result<Vec<Unknown>, AllocError>
    ensures { IfOk result (λ unknowns. unknowns.items ≡ map Reference (range_with_len 0 count)) }
{
    (0..count).map(|i| Unknown::Reference(i)).collect(alloc)
}

fn dots(alloc: Global, count: u32) -> Result<Vec<Unknown>, AllocError>
    ensures { IfOk result (λ unknowns. unknowns.items ≡ map Dot (range_with_len 0 count)) }
{
    (0..count).map(|i| Unknown::Dot(i)).collect(alloc)
}

/// The unknowns of a design in their order.
pub fn unknowns(alloc: Global, flat: &Flat) -> Result<Items<Unknown>, AllocError>
    requires { IsDesign flat.now }
    ensures { IfOk result (λ all. all ≡ unknowns flat.now) }
{
    let references = references(alloc, flat.nodes().len() as u32)?;
    let dots = dots(alloc, flat.dots().len() as u32)?;
    let mut all = Items::from_vec(quantities(alloc, flat.quantities().len() as u32)?);
    all.append(Items::from_vec(references))?;
    all.append(Items::from_vec(dots))?;
    Ok(all)
}
