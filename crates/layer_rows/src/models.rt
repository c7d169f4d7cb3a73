use ams_value::Val;
use fix_core::{Fix, Tick};
use mini_models::{Change, Plan, first_events};
use std::test::Fail;
use step_data::{
    Attempt, BreakList, Choices, Element, Event, EventList, Frame, Options, Ran, Text,
    ThresholdList, ThresholdState, Tip,
};

#[test]
fn the_change_of_domain_comes_before_the_signal(rt: HostRuntime) -> Result<(), Fail> {
    let zero = Tick::new(0).ok_or("no tick")?;
    let plan = Plan {
        low: Fix::exactly(0),
        high: Fix::exactly(1),
        longest: 5000,
        change: Some(Change {
            at: zero,
            value: true,
        }),
        failure: None,
        options: Options {
            stop: Tick::new(10_000).ok_or("no tick")?,
            ahead: 64,
            h0: 5000,
            hmin: 5000,
            hmax: 5000,
            tol: 1_000_000,
            ltol: 1_000_000_000,
            xres: 1,
        },
    };
    let mut out = EventList::new(rt.alloc());
    let ran = first_events(rt.alloc(), &plan, &mut out)?;
    assert_eq!(rt; ran, Ran::Done { broke: false });
    assert_eq!(rt; out.len(), 2);
    Ok(())
}

fn element(selector: u32) -> Element {
    Element {
        selector,
        quantity: 0,
        value: Fix::exactly(1),
    }
}

#[test]
fn lists_grow(rt: HostRuntime) -> Result<(), Fail> {
    let mut breaks = BreakList::new(rt.alloc());
    breaks.push(element(1))?;
    breaks.push(element(2))?;
    let mut thresholds = ThresholdList::new(rt.alloc());
    thresholds.push(ThresholdState {
        unknown: 0,
        level: Fix::exactly(5),
        on: false,
    })?;
    let mut text = Text::new(rt.alloc());
    text.push(b'!')?;
    assert_eq!(rt; (breaks.len(), thresholds.len(), text.len()), (2, 1, 1));
    let t = Tick::new(7).ok_or("no tick")?;
    let mut events = EventList::new(rt.alloc());
    events.push(Event::Broke {
        t,
        n: 0,
        list: breaks,
    })?;
    events.push(Event::Report {
        t,
        n: 0,
        severity: 0,
        text,
    })?;
    assert_eq!(rt; events.len(), 2);
    events.clear();
    assert_eq!(rt; events.len(), 0);
    Ok(())
}

#[test]
fn lists_of_a_length_are_made(rt: HostRuntime) -> Result<(), Fail> {
    let mut frame = Frame::new(rt.alloc(), 2)?;
    frame.set(1, Val::Int(3));
    let other = Frame::new(rt.alloc(), 2)?;
    assert!(rt; !frame.is_same(&other));
    let choices = Choices::new(rt.alloc(), 3)?;
    assert_eq!(rt; choices.len(), 3);
    let mut tip = Tip::blank(rt.alloc(), 1)?;
    let attempt = Attempt::blank(rt.alloc(), 1)?;
    tip.advance(&attempt);
    assert!(rt; !tip.fresh);
    Ok(())
}
