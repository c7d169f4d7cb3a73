//! The branch ends at a node.
ghost use Rattle.std.specs.Prelude.{◌≡◌, ◌<◌, ◌++◌, length, IfOk, OnOk};
ghost use Rattle.design_meaning.specs.Equations.{is_node, end_at, ends_by, ends_from};

use flat_design::{Quantity, QuantityKind, Terminal};
use sqlite_items::Items;
use std::alloc::{AllocError, Global};
use std::marker::Model;

/// An end of a branch at a node: the number of the through quantity, and whether it is the minus end.
#[derive(Clone, Copy)]
pub struct NodeEnd {
    pub quantity: u32,
    pub minus_end: bool,
}

impl Model for NodeEnd {
    ghost use Rattle.design_meaning.specs.Equations.{BranchEnd};

    ghost Value = { BranchEnd };

    ghost view = { λ a. record { quantity = a.quantity; minus_end = a.minus_end } };

    ghost inverse = { λ e. record { quantity = e.quantity; minus_end = e.minus_end } };
}

fn is_node(node: u32, terminal: Terminal) -> bool
    ensures { result ≡ is_node node terminal }
{
    match terminal {
        Terminal::Node(other) => node == other,
        Terminal::Reference => false,
    }
}

/// Adds an end where it is at the node.
fn add_end(ends: &mut Items<NodeEnd>, is_here: bool, end: NodeEnd) -> Result<(), AllocError>
    ensures { OnOk result (ends.new ≡ ends.old ++ end_at is_here end) }
{
    if is_here {
        ends.push(end)?;
    }
    Ok(())
}

/// Adds the ends of a quantity's branch at a node, the plus end first.
fn add_ends(
    ends: &mut Items<NodeEnd>,
    node: u32,
    quantity: u32,
    kind: QuantityKind,
) -> Result<(), AllocError>
    ensures { OnOk result (ends.new ≡ ends.old ++ ends_by node quantity kind) }
{
    match kind {
        QuantityKind::Through(plus, minus) => {
            let at_plus = NodeEnd {
                quantity,
                minus_end: false,
            };
            let at_minus = NodeEnd {
                quantity,
                minus_end: true,
            };
            add_end(ends, is_node(node, plus), at_plus)?;
            add_end(ends, is_node(node, minus), at_minus)
        }
        QuantityKind::Free | QuantityKind::Across(_, _) => Ok(()),
    }
}

/// The branch ends at a node, over the through quantities in order.
pub fn node_ends(
    alloc: Global,
    node: u32,
    quantities: &[Quantity],
) -> Result<Items<NodeEnd>, AllocError>
    requires { length quantities.now < 4294967296 }
    ensures { IfOk result (λ ends. ends ≡ ends_from node 0 quantities.now) }
{
    let mut ends = Items::new(alloc);
    for i in 0..quantities.len() {
        add_ends(&mut ends, node, i as u32, quantities[i].kind)?;
    }
    Ok(ends)
}
