ghost use Rattle.std.specs.Prelude.{◌≡◌, ◌<◌, ◌++◌, ◌∷◌, [], length, slice_get, OnOk, OnErr, IfOk, Some};
ghost use Rattle.step_data.specs.declared.event.Event.TheVariants.{Solved};

use crate::breaks::BreakList;
use ams_point::Point;
use ams_value::Val;
use fix_core::Tick;
use std::alloc::{AllocError, Global};
use std::marker::Model;

/// A text of bytes, as that of a report.
#[derive(Drop)]
pub struct Text {
    bytes: Vec<u8>,
}

impl Model for Text {
    ghost use Rattle.std.specs.Prelude.{List, ℕ};

    ghost Value = { List ℕ };

    ghost view = { λ a. a.bytes.items };
}

impl Text {
    /// An empty text.
    pub fn new(alloc: Global) -> Text
        ensures { result ≡ [] }
    {
        Text {
            bytes: Vec::new(alloc),
        }
    }

    /// Adds a byte at the end; where no memory is found the text stays as it is.
    pub fn push(&mut self, byte: u8) -> Result<(), AllocError>
        ensures ok { OnOk result (self.new ≡ self.old ++ byte ∷ []) }
        ensures err { OnErr result (self.new ≡ self.old) }
    {
        self.bytes.push(byte)?;
        Ok(())
    }

    pub fn len(&self) -> usize
        ensures { result ≡ length self.now }
    {
        self.bytes.len()
    }

    /// The bytes.
    pub fn as_slice(&self) -> &[u8]
        ensures { result.now ≡ self.now }
    {
        self.bytes.as_slice()
    }
}

/// What a run gives, at a time and a delta.
#[derive(Drop)]
pub enum Event {
    /// The unknowns have these values.
    Solved {
        t: Tick,
        n: u32,
        x: Point,
    },
    /// DOMAIN becomes TIME_DOMAIN.
    Domain {
        t: Tick,
        n: u32,
    },
    /// Threshold `k` becomes this value.
    Cross {
        t: Tick,
        n: u32,
        k: u32,
        on: bool,
    },
    /// Signal `i` becomes this value.
    Signal {
        t: Tick,
        n: u32,
        i: u32,
        value: Val,
    },
    /// A break was executed, with these elements.
    Broke {
        t: Tick,
        n: u32,
        list: BreakList,
    },
    /// A report, or an assertion that doesn't hold. Severities are 0 to 3: note, warning, error, failure.
    Report {
        t: Tick,
        n: u32,
        severity: u8,
        text: Text,
    },
    /// Choice `k` takes branch `b` in the next point.
    Branch {
        t: Tick,
        n: u32,
        k: u32,
        b: u32,
    },
}

/// Events in their order. A point that an event leaves behind is kept for a later one.
#[derive(Drop)]
pub struct EventList {
    events: Vec<Event>,
    spare: Vec<Point>,
}

impl Model for EventList {
    ghost use Rattle.std.specs.Prelude.{List};
    ghost use Rattle.step_data.specs.declared.event.Event.{Event};

    ghost Value = { List Event };

    ghost view = { λ a. a.events.items };
}

impl EventList {
    /// An empty list.
    pub fn new(alloc: Global) -> EventList
        ensures { result ≡ [] }
    {
        EventList {
            events: Vec::new(alloc),
            spare: Vec::new(alloc),
        }
    }

    /// Adds an event at the end; where no memory is found the list stays as it is.
    pub fn push(&mut self, event: Event) -> Result<(), AllocError>
        ensures ok { OnOk result (self.new ≡ self.old ++ event ∷ []) }
        ensures err { OnErr result (self.new ≡ self.old) }
    {
        self.events.push(event)?;
        Ok(())
    }

    /// A point of so many values, one that was kept where it has as many.
    fn spare_point(&mut self, alloc: Global, n: usize) -> Result<Point, AllocError>
        ensures list { self.new ≡ self.old }
        ensures point { IfOk result (λ point. length point ≡ n) }
    {
        match self.spare.pop() {
            Some(point) if point.len() == n => Ok(point),
            _ => Point::new(alloc, n),
        }
    }

    /// Adds that the unknowns have the values of a point, which is copied. No memory is taken where the list has room and a
    /// point of that length was kept.
    pub fn push_solved(
        &mut self,
        alloc: Global,
        t: Tick,
        n: u32,
        x: &Point,
    ) -> Result<(), AllocError>
        ensures ok { OnOk result (self.new ≡ self.old ++ Solved t n x.now ∷ []) }
        ensures err { OnErr result (self.new ≡ self.old) }
    {
        let mut copy = self.spare_point(alloc, x.len())?;
        copy.copy_from(x);
        self.push(Event::Solved { t, n, x: copy })
    }

    pub fn len(&self) -> usize
        ensures { result ≡ length self.now }
    {
        self.events.len()
    }

    /// Keeps the point of an event, if it has one and room is found.
    fn keep_point(&mut self, event: Event)
        ensures { self.new ≡ self.old }
    {
        if let Event::Solved { x, .. } = event {
            let _ = self.spare.push(x);
        }
    }

    /// Takes all events out; their memory and their points are kept for later ones.
    pub fn clear(&mut self)
        ensures { self.new ≡ [] }
    {
        for _ in 0..self.events.len() {
            if let Some(event) = self.events.pop() {
                self.keep_point(event);
            }
        }
        self.events.clear();
    }

    /// The events.
    pub fn as_slice(&self) -> &[Event]
        ensures { result.now ≡ self.now }
    {
        self.events.as_slice()
    }
}
