//! Break elements.
ghost use Rattle.std.specs.Prelude.{◌≡◌, ◌++◌, OnOk, Ok, Err};
ghost use Rattle.std.specs.List.{All};
ghost use Rattle.flat_expr.specs.declared.statement.BreakElement.{BreakElement};
ghost use Rattle.step_data.specs.Selectors.{has_selector};
ghost use Rattle.step_data.specs.declared.outcome.Refusal.{Refusal};
ghost use Rattle.expr_eval.specs.Condition.{CanEvaluate};
ghost use Rattle.cycle_meaning.specs.Statements.{elements_of};
ghost use Rattle.statement_lists.specs.Executed.{executed_of};

use crate::fault::ListFault;
use expr_eval::units;
use flat_expr::BreakElement;
use message_codes::DOUBLE_BREAK;
use statement_values::{Activation, evaluated};
use step_data::{BreakList, Element, Refusal};

fn has_selector(elements: &[Element], selector: u32) -> bool
    ensures { result ≡ has_selector selector elements.now }
{
    elements.iter().any(|element| element.selector == selector)
}

/// A break element as it is executed, unless one for its selector is among the earlier ones of the cycle, which were made by
/// statements before this one, or among those of this one.
#[tactic(auto, using(crate::proofs::Breaking::either_has))]
fn executed<A: Activation>(
    at: &A,
    element: &BreakElement,
    earlier: &[Element],
    made: &[Element],
) -> Result<Element, Refusal>
    requires { CanEvaluate (A.readings at.now) element.now.value }
    ensures { result ≡ executed_of (A.context at.now) (A.local at.now) (earlier.now ++ made.now) element.now }
{
    match evaluated(at, &element.value) {
        Ok(value) => {
            if has_selector(earlier, element.selector) || has_selector(made, element.selector) {
                return Err(Refusal {
                    code: DOUBLE_BREAK,
                    detail: Some(element.selector),
                });
            }
            Ok(Element {
                selector: element.selector,
                quantity: element.quantity,
                value: units(value),
            })
        }
        Err(refusal) => Err(refusal),
    }
}

/// The break elements as they are executed, in order, behind the earlier ones of the cycle (IEEE 1076.1, break statement). What
/// `made` had is taken out first. After an answer other than Ok it has the elements before.
pub fn executed_elements<A: Activation>(
    at: &A,
    earlier: &[Element],
    elements: &[BreakElement],
    made: &mut BreakList,
) -> Result<(), ListFault>
    requires { All (λ (e : BreakElement). CanEvaluate (A.readings at.now) e.value) elements.now }
    ensures ok { OnOk result (elements_of (A.context at.now) (A.local at.now) earlier.now elements.now ≡ Ok made.new) }
    ensures refused { (r : Refusal) → result ≡ Err (ListFault.Refused r) → elements_of (A.context at.now) (A.local at.now) earlier.now elements.now ≡ Err r }
{
    made.clear();
    for element in elements {
        match executed(at, element, earlier, made.as_slice()) {
            Ok(next) => {
                let Ok(()) = made.push(next) else {
                    return Err(ListFault::Memory);
                };
            }
            Err(refusal) => return Err(ListFault::Refused(refusal)),
        }
    }
    Ok(())
}
