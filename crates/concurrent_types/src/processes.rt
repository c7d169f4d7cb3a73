//! Processes, and concurrent statements that stand for them (IEEE 1076, 11.3, 11.5 and 11.6; break: IEEE 1076.1).
ghost use Rattle.std.specs.Prelude.{◌≡◌, OnOk};
ghost use Rattle.unit_meaning.specs.Concurrent as spec;
ghost use Rattle.unit_meaning.specs.Processes as processes;
ghost use Rattle.expr_types.specs.Known.{Finds, IsSoundScope};

use ams_token::Place;
use ams_tree::{
    Assertion, BreakElement, ConditionalWaveform, DelayMechanism, Expr, Name, Process as Written,
    WaveformElement,
};
use concurrent_processes::{concurrent_assertion, concurrent_assignment, concurrent_break};
use elab_meaning::{Notes, Part};
use flat_design::Process;
use name_scope::Scope;
use process_types::process;
use statement_parts::Setting;
use std::alloc::{AllocError, Global};
use unit_meaning::Made;

fn process_of(process: Part<Process>) -> Made
    ensures { result ≡ spec.process_of process }
{
    match process {
        Part::Kept(process) => Made::Process(process),
        Part::Wrong | Part::Hidden => Made::Nothing,
    }
}

pub fn written_process(
    alloc: Global,
    setting: &Setting<'_>,
    scope: &mut Scope,
    label: &Option<Name>,
    written: &Written,
    notes: &mut Notes,
) -> Result<Made, AllocError>
    requires { IsSoundScope scope.old }
    ensures found { Finds (spec.process_made (processes.process setting.now scope.old label.now written.now notes.old)) result notes.new }
    ensures scope { OnOk result (scope.new ≡ scope.old) }
{
    let process = process(alloc, setting, scope, label, written, notes)?;
    Ok(process_of(process))
}

pub fn assigning_process(
    alloc: Global,
    setting: &Setting<'_>,
    scope: &Scope,
    name: Name,
    delay: &Option<DelayMechanism>,
    first: &[ConditionalWaveform],
    last: &[WaveformElement],
    when: &Option<Expr>,
    notes: &mut Notes,
) -> Result<Made, AllocError>
    requires { IsSoundScope scope.now }
    ensures { Finds (spec.process_made (processes.concurrent_assignment setting.now scope.now name delay.now first.now last.now when.now notes.old)) result notes.new }
{
    let process = concurrent_assignment(
        alloc, setting, scope, name, delay, first, last, when, notes,
    )?;
    Ok(process_of(process))
}

pub fn asserting_process(
    alloc: Global,
    setting: &Setting<'_>,
    scope: &Scope,
    written: &Assertion,
    notes: &mut Notes,
) -> Result<Made, AllocError>
    requires { IsSoundScope scope.now }
    ensures { Finds (spec.process_made (processes.concurrent_assertion setting.now scope.now written.now notes.old)) result notes.new }
{
    let process = concurrent_assertion(alloc, setting, scope, written, notes)?;
    Ok(process_of(process))
}

pub fn breaking_process(
    alloc: Global,
    setting: &Setting<'_>,
    scope: &Scope,
    place: Place,
    elements: &[BreakElement],
    names: &[Expr],
    when: &Option<Expr>,
    notes: &mut Notes,
) -> Result<Made, AllocError>
    requires { IsSoundScope scope.now }
    ensures { Finds (spec.process_made (processes.concurrent_break setting.now scope.now place elements.now names.now when.now notes.old)) result notes.new }
{
    let process = concurrent_break(alloc, setting, scope, place, elements, names, when, notes)?;
    Ok(process_of(process))
}
