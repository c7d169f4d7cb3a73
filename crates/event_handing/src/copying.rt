//! Copies of events.
ghost use Rattle.std.specs.Prelude.{◌≡◌, IfOk};

use ams_point::Point;
use std::alloc::{AllocError, Global};
use step_data::{BreakList, Event, Text};

/// A text of these bytes.
fn text_of(alloc: Global, bytes: &[u8]) -> Result<Text, AllocError>
    ensures { IfOk result (λ text. text ≡ bytes.now) }
{
    let mut text = Text::new(alloc);
    for byte in bytes {
        text.push(*byte)?;
    }
    Ok(text)
}

/// A list of these elements.
fn list_of(alloc: Global, elements: &BreakList) -> Result<BreakList, AllocError>
    ensures { IfOk result (λ list. list ≡ elements.now) }
{
    let mut list = BreakList::new(alloc);
    for element in elements.as_slice() {
        list.push(*element)?;
    }
    Ok(list)
}

/// A point of the same values.
fn point_of(alloc: Global, x: &Point) -> Result<Point, AllocError>
    ensures { IfOk result (λ point. point ≡ x.now) }
{
    let mut point = Point::new(alloc, x.len())?;
    point.copy_from(x);
    Ok(point)
}

/// An event that is the same.
pub fn copy_of(alloc: Global, event: &Event) -> Result<Event, AllocError>
    ensures { IfOk result (λ copy. copy ≡ event.now) }
{
    match event {
        Event::Solved { t, n, x } => {
            let x = point_of(alloc, x)?;
            Ok(Event::Solved { t: *t, n: *n, x })
        }
        Event::Domain { t, n } => Ok(Event::Domain { t: *t, n: *n }),
        Event::Cross { t, n, k, on } => Ok(Event::Cross {
            t: *t,
            n: *n,
            k: *k,
            on: *on,
        }),
        Event::Signal { t, n, i, value } => Ok(Event::Signal {
            t: *t,
            n: *n,
            i: *i,
            value: *value,
        }),
        Event::Broke { t, n, list } => {
            let list = list_of(alloc, list)?;
            Ok(Event::Broke { t: *t, n: *n, list })
        }
        Event::Report {
            t,
            n,
            severity,
            text,
        } => {
            let text = text_of(alloc, text.as_slice())?;
            Ok(Event::Report {
                t: *t,
                n: *n,
                severity: *severity,
                text,
            })
        }
        Event::Branch { t, n, k, b } => Ok(Event::Branch {
            t: *t,
            n: *n,
            k: *k,
            b: *b,
        }),
    }
}
