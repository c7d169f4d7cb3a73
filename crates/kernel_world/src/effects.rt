//! What the process that runs changes.
ghost use Rattle.std.specs.Prelude.{◌≡◌, ◌++◌, IfOk, OnOk};

use crate::reading::constraint_at;
use crate::world::World;
use ams_value::Val;
use flat_expr::Constraint;
use process_effects::Effects;
use std::alloc::{AllocError, Global};
use step_data::{BreakList, Element, Event, Text, Trans};
use waveform::DelayKind;

/// A text of these bytes.
fn text_of(alloc: Global, bytes: &[u8]) -> Result<Text, AllocError>
    ensures { IfOk result (λ text. text ≡ bytes.now) }
{
    let mut text = Text::new(alloc);
    for byte in bytes {
        text.push(*byte)?;
    }
    Ok(text)
}

/// Adds these elements at the end of a list.
fn add_all(list: &mut BreakList, added: &[Element]) -> Result<(), AllocError>
    ensures { OnOk result (list.new ≡ list.old ++ added.now) }
{
    for element in added {
        list.push(*element)?;
    }
    Ok(())
}

/// A list of these elements.
fn copy_of(alloc: Global, elements: &[Element]) -> Result<BreakList, AllocError>
    ensures { IfOk result (λ list. list ≡ elements.now) }
{
    let mut list = BreakList::new(alloc);
    add_all(&mut list, elements)?;
    Ok(list)
}

impl Effects for World<'_> {
    fn constraint(&self, signal: u32) -> Constraint {
        constraint_at(self.flat.signals(), signal)
    }

    fn elements(&self) -> &[Element] {
        self.elements.as_slice()
    }

    fn set_variable(&mut self, number: u32, value: Val) {
        self.variables[number as usize] = value;
    }

    fn assign(
        &mut self,
        signal: u32,
        kind: DelayKind,
        reject: u64,
        new: &[Trans],
    ) -> Result<(), AllocError> {
        let number = self.numbers.number(signal);
        self.drivers.assign(number, self.time, kind, reject, new)
    }

    fn report(&mut self, severity: u8, text: &[u8]) -> Result<(), AllocError> {
        let text = text_of(self.alloc, text)?;
        self.events.push(Event::Report {
            t: self.time,
            n: self.delta,
            severity,
            text,
        })
    }

    fn execute(&mut self, made: &BreakList) -> Result<(), AllocError> {
        let list = copy_of(self.alloc, made.as_slice())?;
        add_all(&mut self.elements, made.as_slice())?;
        self.events.push(Event::Broke {
            t: self.time,
            n: self.delta,
            list,
        })?;
        self.broke = true;
        Ok(())
    }
}
