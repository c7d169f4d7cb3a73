//! The signals that expressions read.
ghost use Rattle.std.specs.Prelude.{◌≡◌, ◌++◌, IfOk, OnOk};
ghost use Rattle.unit_meaning.specs.Bare as spec;

use flat_expr::{FlatExpr, SignalName};
use sqlite_items::Items;
use std::alloc::{AllocError, Global};

/// Adds the signals that an expression reads, those whose events it reads among them, from the left.
#[tactic(auto, using(std::proofs::lemmas::List::append_assoc))]
pub fn add_signals(expr: &FlatExpr, all: &mut Items<SignalName>) -> Result<(), AllocError>
    ensures { OnOk result (all.new ≡ all.old ++ spec.signals_in expr.now) }
{
    match expr {
        FlatExpr::Signal(signal, _) | FlatExpr::Event(signal) => all.push(*signal),
        FlatExpr::Unary(_, _, operand) | FlatExpr::Call(_, operand) => {
            add_signals(operand.get(), all)
        }
        FlatExpr::Binary(_, _, left, right) | FlatExpr::Index(left, right, _) => {
            add_signals(left.get(), all)?;
            add_signals(right.get(), all)
        }
        _ => Ok(()),
    }
}

/// The signals that an expression reads, where one is written.
pub fn signals_in_some(
    alloc: Global,
    expr: &Option<FlatExpr>,
) -> Result<Items<SignalName>, AllocError>
    ensures { IfOk result (λ all. all ≡ spec.signals_in_some expr.now) }
{
    let mut all = Items::new(alloc);
    if let Some(expr) = expr {
        add_signals(expr, &mut all)?;
    }
    Ok(all)
}

/// Each of them once.
pub fn once(alloc: Global, signals: &[SignalName]) -> Result<Items<SignalName>, AllocError>
    ensures { IfOk result (λ all. all ≡ spec.once signals.now) }
{
    signal_list::once(alloc, signals)
}
