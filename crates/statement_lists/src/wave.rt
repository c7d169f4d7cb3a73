//! Waveforms.
ghost use Rattle.std.specs.Prelude.{◌≡◌, OnOk, Ok, Err, Some, None};
ghost use Rattle.std.specs.List.{All};
ghost use Rattle.step_data.specs.declared.outcome.Refusal.{Refusal};
ghost use Rattle.cycle_meaning.specs.Statements.{transactions};
ghost use Rattle.statement_values.specs.Parts.{fits_both, CanEvaluateElement};

use crate::fault::ListFault;
use flat_expr::WaveElement;
use statement_values::{Activation, Subtypes, Timed, transaction};
use step_data::Trans;

fn delay_before_next(made: &Timed) -> Option<i64>
    ensures { result ≡ Some made.now.delay }
{
    Some(made.delay)
}

/// The transactions of a waveform, in order (IEEE 1076, 10.5.2). What `found` had is taken out first. After an answer other than
/// Ok it has those of the elements before.
pub fn transactions<A: Activation>(
    at: &A,
    elements: &[WaveElement],
    subtypes: &Subtypes,
    limit: Option<i64>,
    found: &mut Vec<Trans>,
) -> Result<(), ListFault>
    requires { All (CanEvaluateElement (A.readings at.now)) elements.now }
    ensures ok { OnOk result (transactions (A.context at.now) (A.local at.now) (fits_both subtypes.now) limit None elements.now ≡ Ok found.new.items) }
    ensures refused { (r : Refusal) → result ≡ Err (ListFault.Refused r) → transactions (A.context at.now) (A.local at.now) (fits_both subtypes.now) limit None elements.now ≡ Err r }
{
    found.clear();
    let mut before = None;
    for element in elements {
        match transaction(at, element, subtypes, limit, before) {
            Ok(made) => {
                let Ok(()) = found.push(made.transaction) else {
                    return Err(ListFault::Memory);
                };
                before = delay_before_next(&made);
            }
            Err(refusal) => return Err(ListFault::Refused(refusal)),
        }
    }
    Ok(())
}
