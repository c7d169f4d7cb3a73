//! The equations that every set has besides the explicit ones.
ghost use Rattle.std.specs.Prelude.{◌≡◌, ◌<◌, ◌++◌, length, IfOk, OnOk};
ghost use Rattle.flat_design.specs.Flat.{HasNumbers};
ghost use Rattle.common_rows.specs.Forms.{sum_forms, form_by, difference_forms, forms_of};

use crate::ends::{NodeEnd, node_ends};
use flat_design::{Flat, Quantity, QuantityKind, Terminal};
use sqlite_items::Items;
use std::alloc::{AllocError, Global};

/// An equation that every set has.
#[derive(Drop)]
pub enum CommonForm {
    /// The branch ends at a node, whose through quantities sum to 0.
    Sum(Items<NodeEnd>),
    /// An across quantity is the difference of the references of its plus and its minus terminal.
    Difference(u32, Terminal, Terminal),
}

/// The sum of each node, of so many nodes.
fn sum_forms(
    alloc: Global,
    nodes: usize,
    quantities: &[Quantity],
) -> Result<Items<CommonForm>, AllocError>
    requires nodes { nodes < 4294967296 }
    requires quantities { length quantities.now < 4294967296 }
    ensures { IfOk result (λ forms. forms ≡ sum_forms quantities.now nodes) }
{
    let mut forms = Items::new(alloc);
    for node in 0..nodes {
        let ends = node_ends(alloc, node as u32, quantities)?;
        forms.push(CommonForm::Sum(ends))?;
    }
    Ok(forms)
}

/// Adds the difference of an across quantity.
fn add_form(
    forms: &mut Items<CommonForm>,
    quantity: u32,
    kind: QuantityKind,
) -> Result<(), AllocError>
    ensures { OnOk result (forms.new ≡ forms.old ++ form_by quantity kind) }
{
    match kind {
        QuantityKind::Across(plus, minus) => {
            forms.push(CommonForm::Difference(quantity, plus, minus))
        }
        QuantityKind::Free | QuantityKind::Through(_, _) => Ok(()),
    }
}

/// Adds the difference of each across quantity.
fn add_differences(forms: &mut Items<CommonForm>, quantities: &[Quantity]) -> Result<(), AllocError>
    requires { length quantities.now < 4294967296 }
    ensures { OnOk result (forms.new ≡ forms.old ++ difference_forms 0 quantities.now) }
{
    for i in 0..quantities.len() {
        add_form(forms, i as u32, quantities[i].kind)?;
    }
    Ok(())
}

/// The equations of a design that every set has, without the explicit ones.
pub fn forms_of(alloc: Global, flat: &Flat) -> Result<Items<CommonForm>, AllocError>
    requires { HasNumbers flat.now }
    ensures { IfOk result (λ forms. forms ≡ forms_of flat.now) }
{
    let mut forms = sum_forms(alloc, flat.nodes().len(), flat.quantities())?;
    add_differences(&mut forms, flat.quantities())?;
    Ok(forms)
}
