//! Which processes wait on each signal. It never changes while a design runs.
ghost use Rattle.std.specs.Prelude.{◌≡◌, ◌<◌, ◌^◌, ◌∷◌, [], ℕ, length, map, replicate, slice_index_or, IfOk, OnOk};
ghost use Rattle.flat_expr.specs.declared.statement.Statement.{out-Statement};
ghost use Rattle.cycle_meaning.specs.Cycles.{waiting_at};
ghost use Rattle.resumption.specs.Sleeps.{waits_of};
ghost use Rattle.resumption.specs.Waits.{is_wait, waiting_stated};
ghost use Rattle.resumption_calls.specs.Calls.{HaveCallers};
ghost use Rattle.process_callers.specs.Callers.{callers_of, items_of, names_of, AreWithin};
ghost use Rattle.process_callers.specs.Growing.{IsPut, IsPutAt, Grows};

use flat_design::{Flat, PathStep, Process};
use flat_expr::{SignalName, Statement};
use process_stack::{inner_body, statement_at};
use std::alloc::{AllocError, Global};
use std::marker::Model;

/// For each signal, for each threshold and for DOMAIN the processes some wait of which names it, in process order.
#[derive(Drop)]
pub struct Callers {
    signals: Vec<Vec<u32>>,
    thresholds: Vec<Vec<u32>>,
    domain: Vec<u32>,
}

impl Model for Callers {
    ghost use Rattle.process_callers.specs.Callers.{Lists, items_of};

    ghost Value = { Lists };

    ghost view = { λ a. record { signals = items_of a.signals.items; thresholds = items_of a.thresholds.items; domain = a.domain.items } };
}

/// So many lists, each of them empty.
fn empty_lists(alloc: Global, count: usize) -> Result<Vec<Vec<u32>>, AllocError>
    ensures { IfOk result (λ lists. items_of lists.items ≡ replicate count []) }
{
    let mut lists = Vec::new(alloc);
    for _ in 0..count {
        lists.push(Vec::new(alloc))?;
    }
    Ok(lists)
}

/// Puts a process at the end of a list, unless it stands there.
fn put_once(list: &mut Vec<u32>, process: u32) -> Result<(), AllocError>
    ensures { OnOk result (IsPut process list.old.items list.new.items) }
{
    let count = list.len();
    if count > 0 && list[count - 1] == process {
        return Ok(());
    }
    list.push(process)?;
    Ok(())
}

/// Puts a process into the list of a place, if there is one.
fn put_at(lists: &mut Vec<Vec<u32>>, place: usize, process: u32) -> Result<(), AllocError>
    ensures { OnOk result ((count : ℕ) → process < count → IsPutAt count process place (items_of lists.old.items) (items_of lists.new.items)) }
{
    if place < lists.len() {
        put_once(&mut lists[place], process)?;
    }
    Ok(())
}

/// The list of a place, empty where there is none.
fn list_at(lists: &[Vec<u32>], place: usize) -> &[u32]
    ensures { result.now ≡ slice_index_or (items_of lists.now) place [] }
{
    match lists.get(place) {
        Some(list) => list.as_slice(),
        None => &[],
    }
}

fn is_wait(statement: &Statement) -> bool
    ensures { result ≡ is_wait (out-Statement statement.now) }
{
    match statement {
        Statement::Wait(_, _, _, _) => true,
        _ => false,
    }
}

/// The sensitivity set of a wait statement.
fn set_of(statement: &Statement) -> &[SignalName]
    ensures { result.now ≡ (waiting_stated (out-Statement statement.now)).0 }
{
    match statement {
        Statement::Wait(_, on, _, _) => on.as_slice(),
        _ => &[],
    }
}

/// The sensitivity set of the wait that a way leads to.
fn set_at<'a>(text: &'a [Statement], path: &[PathStep]) -> &'a [SignalName]
    ensures { result.now ≡ (waiting_at path.now text.now).0 }
{
    let mut body = text;
    for step in path {
        match statement_at(body, step.statement as usize) {
            Some(statement) => {
                if is_wait(statement) {
                    return set_of(statement);
                }
                body = inner_body(statement, step.branch as usize);
            }
            None => return &[],
        }
    }
    &[]
}

impl Callers {
    /// Puts a process into the list of a name.
    fn add(&mut self, process: u32, name: SignalName) -> Result<(), AllocError>
        ensures { OnOk result ((count : ℕ) → process < count → Grows count process (name ∷ []) self.old self.new) }
    {
        match name {
            SignalName::Signal(i) => put_at(&mut self.signals, i as usize, process),
            SignalName::Threshold(k) => put_at(&mut self.thresholds, k as usize, process),
            SignalName::Domain => put_once(&mut self.domain, process),
        }
    }

    /// Puts a process into the lists of some names.
    fn add_all(&mut self, process: u32, names: &[SignalName]) -> Result<(), AllocError>
        ensures { OnOk result ((count : ℕ) → process < count → Grows count process names.now self.old self.new) }
    {
        for name in names {
            self.add(process, *name)?;
        }
        Ok(())
    }

    /// Puts a process into the list of each name that some wait of it has.
    fn add_process(&mut self, number: u32, process: &Process) -> Result<(), AllocError>
        ensures { OnOk result ((count : ℕ) → number < count → Grows count number (names_of (waits_of process.now)) self.old self.new) }
    {
        let text = process.statements.as_slice();
        for place in process.waits.as_slice() {
            self.add_all(number, set_at(text, place.path.as_slice()))?;
        }
        Ok(())
    }

    /// The lists of a design.
    pub fn new(alloc: Global, flat: &Flat) -> Result<Callers, AllocError>
        requires { length flat.now.processes < 2 ^ 32 }
        ensures callers { IfOk result (λ c. HaveCallers (callers_of (length flat.now.processes) c) (map waits_of flat.now.processes)) }
        ensures within { IfOk result (λ c. AreWithin (length flat.now.processes) c) }
        ensures signals { IfOk result (λ c. length c.signals ≡ length flat.now.signals) }
        ensures thresholds { IfOk result (λ c. length c.thresholds ≡ length flat.now.thresholds) }
    {
        let signals = empty_lists(alloc, flat.signals().len())?;
        let thresholds = empty_lists(alloc, flat.thresholds().len())?;
        let mut callers = Callers {
            signals,
            thresholds,
            domain: Vec::new(alloc),
        };
        let processes = flat.processes();
        for k in 0..processes.len() {
            callers.add_process(k as u32, &processes[k])?;
        }
        Ok(callers)
    }

    /// The processes that wait on a signal, none at a number that no signal has.
    pub(crate) fn of_signal(&self, i: u32) -> &[u32]
        ensures { result.now ≡ slice_index_or self.now.signals i [] }
    {
        list_at(&self.signals, i as usize)
    }

    /// The processes that wait on a threshold signal.
    pub(crate) fn of_threshold(&self, k: u32) -> &[u32]
        ensures { result.now ≡ slice_index_or self.now.thresholds k [] }
    {
        list_at(&self.thresholds, k as usize)
    }

    /// The processes that wait on DOMAIN.
    pub(crate) fn of_domain(&self) -> &[u32]
        ensures { result.now ≡ self.now.domain }
    {
        self.domain.as_slice()
    }
}
