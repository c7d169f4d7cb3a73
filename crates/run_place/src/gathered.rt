//! The break elements that count in QUIESCENT_DOMAIN.

ghost use Rattle.std.specs.Prelude.{◌≡◌, OnOk};
ghost use Rattle.lockstep_model.specs.Lockstep.{with_element, gathered_with};

use std::alloc::AllocError;
use step_data::{BreakList, Element};

/// Adds an element, or replaces the one of its selector.
fn put(list: &mut BreakList, element: Element) -> Result<(), AllocError>
    ensures { OnOk result (list.new ≡ with_element list.old element) }
{
    for i in 0..list.len() {
        if list.get(i).selector == element.selector {
            list.set(i, element);
            return Ok(());
        }
    }
    list.push(element)
}

/// Adds elements in their order; a later one replaces the earlier one of its selector. Where no memory is found, some
/// of them are added.
pub fn gather(list: &mut BreakList, more: &BreakList) -> Result<(), AllocError>
    ensures { OnOk result (list.new ≡ gathered_with list.old more.now) }
{
    for k in 0..more.len() {
        put(list, more.get(k))?;
    }
    Ok(())
}
