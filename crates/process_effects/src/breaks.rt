//! Break statements.
ghost use Rattle.std.specs.Prelude.{◌≡◌};
ghost use Rattle.flat_expr.specs.declared.statement.Statement.TheOpen.{Statement-F};
ghost use Rattle.process_place.specs.Moves.{goes_to, or_refused};
ghost use Rattle.process_ready.specs.Allowed.{CanPerform};
ghost use Rattle.process_effects.specs.Effects.{Leads, break_where};

use crate::effects::Effects;
use flat_expr::{BreakElement, FlatExpr};
use sqlite_items::Items;
use statement_lists::{ListFault, executed_elements};
use statement_values::holds;
use step_data::BreakList;

/// A break (IEEE 1076.1, break statement): where its condition holds, its elements are made in `made` and executed.
pub fn perform_break<E: Effects>(
    world: &mut E,
    elements: &Items<BreakElement>,
    condition: &Option<FlatExpr>,
    made: &mut BreakList,
) -> Result<(), ListFault>
    requires { CanPerform (E.context world.old) (E.readings world.old) (Statement-F.Break elements.now condition.now) }
    ensures leads { Leads (λ p. or_refused (E.local world.old) (goes_to p) (break_where (E.context world.old) (E.local world.old) elements.now condition.now)) (E.local world.old) (E.local world.new) result }
    ensures context { E.context world.new ≡ E.context world.old }
{
    match holds(&*world, condition) {
        Ok(true) => {}
        Ok(false) => return Ok(()),
        Err(refusal) => return Err(ListFault::Refused(refusal)),
    }
    match executed_elements(&*world, world.elements(), elements.as_slice(), made) {
        Ok(()) => {}
        Err(fault) => return Err(fault),
    }
    match world.execute(made) {
        Ok(()) => Ok(()),
        Err(_) => Err(ListFault::Memory),
    }
}
