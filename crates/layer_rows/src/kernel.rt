//! What the digital kernel stands on is made and grows where there is memory.

use agenda::Agenda;
use ams_value::Val;
use break_set::{AddFault, BreakSet};
use fix_core::{Fix, Tick};
use signal_store::SignalStore;
use std::test::Fail;
use step_data::Element;

fn element(selector: u32) -> Element {
    Element {
        selector,
        quantity: 0,
        value: Fix::exactly(0),
    }
}

#[test]
fn a_changed_value_is_an_event(rt: HostRuntime) -> Result<(), Fail> {
    let values = vec![in rt.alloc(); Val::Bit(false), Val::Int(3)]?;
    let mut store = SignalStore::new(rt.alloc(), values)?;
    assert!(rt; store.set(0, Val::Bit(true)));
    assert!(rt; !store.set(1, Val::Int(3)));
    assert!(rt; store.had_event(0));
    assert!(rt; !store.had_event(1));
    store.clear();
    assert!(rt; !store.had_event(0));
    assert!(rt; store.get(0) == Val::Bit(true));
    Ok(())
}

#[test]
fn the_least_time_comes_first(rt: HostRuntime) -> Result<(), Fail> {
    let mut agenda = Agenda::new(rt.alloc(), 3)?;
    assert!(rt; agenda.least().is_none());
    agenda.set(2, Tick::new(7))?;
    agenda.set(0, Tick::new(9))?;
    assert!(rt; agenda.least() == Tick::new(7));
    agenda.set(2, None)?;
    assert!(rt; agenda.least() == Tick::new(9));
    Ok(())
}

#[test]
fn a_selector_has_one_element(rt: HostRuntime) -> Result<(), Fail> {
    let mut breaks = BreakSet::new(rt.alloc());
    assert!(rt; breaks.add(element(4)).is_ok());
    assert!(rt; breaks.add(element(5)).is_ok());
    assert!(rt; breaks.add(element(4)) == Err(AddFault::Double(4)));
    assert!(rt; breaks.list().len() == 2);
    Ok(())
}
