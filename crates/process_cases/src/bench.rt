//! What a process acts on. There are no signals, so what is assigned is kept nowhere.
ghost use Rattle.std.specs.Prelude.{◌≡◌, ◌++◌, [], false, IfOk, OnOk};

use ams_value::Val;
use expr_eval::Values;
use fix_core::{Fix, Tick};
use flat_expr::{Constraint, SignalName, Unknown};
use process_effects::Effects;
use statement_values::Activation;
use std::alloc::{AllocError, Global};
use step_data::{BreakList, Element, Event, EventList, Text, Trans};
use waveform::DelayKind;

/// The break elements of the cycle and the events so far, at a time.
#[derive(Drop)]
pub struct Bench {
    pub alloc: Global,
    pub process: u32,
    pub time: Tick,
    pub variables: Vec<Val>,
    pub elements: BreakList,
    pub broke: bool,
    pub events: EventList,
}

impl Bench {
    /// The first process at a time, with no events.
    pub fn new(alloc: Global, time: Tick) -> Bench
        ensures process { result.process ≡ 0 }
        ensures time { result.time ≡ time }
        ensures variables { result.variables.items ≡ [] }
        ensures elements { result.elements ≡ [] }
        ensures broke { result.broke ≡ false }
        ensures events { result.events ≡ [] }
    {
        Bench {
            alloc,
            process: 0,
            time,
            variables: Vec::new(alloc),
            elements: BreakList::new(alloc),
            broke: false,
            events: EventList::new(alloc),
        }
    }
}

impl Values for Bench {
    ghost use Rattle.process_cases.specs.Cases.{case_readings};

    ghost readings = { λ b. case_readings b.variables.items b.time };

    fn signal(&self, name: SignalName) -> Val {
        match name {
            SignalName::Domain => Val::Enum(0, 0),
            _ => Val::Bool(false),
        }
    }

    fn event(&self, _name: SignalName) -> bool {
        false
    }

    fn unknown(&self, _unknown: Unknown) -> Fix {
        Fix::exactly(0)
    }

    fn variable(&self, number: u32) -> Val {
        match self.variables.as_slice().get(number as usize) {
            Some(value) => *value,
            None => Val::Bool(false),
        }
    }

    fn time(&self) -> Tick {
        self.time
    }
}

impl Activation for Bench {
    ghost use Rattle.process_cases.specs.Cases.{case_context, case_local, case_reads};

    ghost context = { λ b. case_context b.process b.time };

    ghost local = { λ b. case_local b.variables.items b.elements b.broke b.events };

    fn process(&self) -> u32 {
        self.process
    }

    ghost reads = { λ b. case_reads b.process b.time b.variables.items b.elements b.broke b.events };
}

fn text_of(alloc: Global, bytes: &[u8]) -> Result<Text, AllocError>
    ensures { IfOk result (λ text. text ≡ bytes.now) }
{
    let mut text = Text::new(alloc);
    for byte in bytes {
        text.push(*byte)?;
    }
    Ok(text)
}

fn push_all(list: &mut BreakList, more: &[Element]) -> Result<(), AllocError>
    ensures { OnOk result (list.new ≡ list.old ++ more.now) }
{
    for element in more {
        list.push(*element)?;
    }
    Ok(())
}

fn copy_of(alloc: Global, elements: &BreakList) -> Result<BreakList, AllocError>
    ensures { IfOk result (λ list. list ≡ elements.now) }
{
    let mut list = BreakList::new(alloc);
    push_all(&mut list, elements.as_slice())?;
    Ok(list)
}

impl Effects for Bench {
    fn constraint(&self, _signal: u32) -> Constraint {
        Constraint::Whole
    }

    fn elements(&self) -> &[Element] {
        self.elements.as_slice()
    }

    fn set_variable(&mut self, number: u32, value: Val) {
        self.variables[number as usize] = value;
    }

    #[tactic(auto, using(crate::proofs::Rules::no_queue))]
    fn assign(
        &mut self,
        _signal: u32,
        _kind: DelayKind,
        _reject: u64,
        _new: &[Trans],
    ) -> Result<(), AllocError> {
        Ok(())
    }

    fn report(&mut self, severity: u8, text: &[u8]) -> Result<(), AllocError> {
        let text = text_of(self.alloc, text)?;
        self.events.push(Event::Report {
            t: self.time,
            n: 0,
            severity,
            text,
        })
    }

    fn execute(&mut self, made: &BreakList) -> Result<(), AllocError> {
        let list = copy_of(self.alloc, made)?;
        push_all(&mut self.elements, made.as_slice())?;
        self.broke = true;
        self.events.push(Event::Broke {
            t: self.time,
            n: 0,
            list,
        })
    }
}
