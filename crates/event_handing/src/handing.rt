//! Events are put behind those of another list.
ghost use Rattle.std.specs.Prelude.{◌≡◌, ◌++◌, [], OnOk, OnErr};
ghost use Rattle.step_model.specs.Kernel.{AddsFront};

use crate::copying::copy_of;
use std::alloc::{AllocError, Global};
use std::mem;
use step_data::EventList;

/// Puts copies of events behind those of a list. Where no memory is found, a front of them was put there.
fn copy_all(alloc: Global, events: &EventList, out: &mut EventList) -> Result<(), AllocError>
    ensures ok { OnOk result (out.new ≡ out.old ++ events.now) }
    ensures front { OnErr result (AddsFront out.old out.new events.now) }
{
    for event in events.as_slice() {
        let copy = copy_of(alloc, event)?;
        out.push(copy)?;
    }
    Ok(())
}

/// Hands events on, behind those of another list; an empty list takes them without a copy. Where no memory is found, a front of
/// them was handed on. None is left.
pub fn hand_on(alloc: Global, events: &mut EventList, out: &mut EventList) -> Result<(), AllocError>
    ensures ok { OnOk result (out.new ≡ out.old ++ events.old) }
    ensures front { OnErr result (AddsFront out.old out.new events.old) }
    ensures none { events.new ≡ [] }
{
    if out.len() == 0 {
        mem::swap(events, out);
        return Ok(());
    }
    let handed = copy_all(alloc, events, out);
    events.clear();
    handed
}
