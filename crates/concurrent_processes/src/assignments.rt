//! Concurrent signal assignments (IEEE 1076, 11.6).
ghost use Rattle.std.specs.Prelude.{◌≡◌, IfOk};
ghost use Rattle.elab_meaning.specs.Parts.{judged};
ghost use Rattle.unit_meaning.specs.Processes as spec;
ghost use Rattle.expr_types.specs.Known.{Finds, IsSoundScope};
ghost use Rattle.concurrent_processes.specs.Assignments.{all_waves, assigning_all, assigning_part, assigning_parts, assignment_behind, driving_process, signal_part};

use crate::waiting::waiting_process;
use ams_token::Place;
use ams_tree::{ConditionalWaveform, DelayMechanism, Expr, Name, WaveformElement};
use conditional_waves::{Wave, Waves, conditionals, equivalent, last_wave, signals};
use elab_meaning::{Notes, Part};
use flat_design::Process;
use flat_expr::{SignalName, Statement};
use held_value::Held;
use name_scope::{Scope, Subtype};
use sqlite_items::Items;
use statement_parts::{Setting, both, finish, target};
use std::alloc::{AllocError, Global};

/// The waveforms before an `else`, and the last one.
fn all_waves(
    alloc: Global,
    setting: &Setting<'_>,
    scope: &Scope,
    to: &Part<(u32, Subtype)>,
    delay: &Option<DelayMechanism>,
    waveforms: &[ConditionalWaveform],
    last: &[WaveformElement],
    when: &Option<Expr>,
    notes: &mut Notes,
) -> Result<Part<(Waves, Wave)>, AllocError>
    requires { IsSoundScope scope.now }
    ensures { Finds (all_waves setting.now scope.now to.now delay.now waveforms.now last.now when.now notes.old) result notes.new }
{
    let first = conditionals(alloc, setting, scope, to, delay, waveforms, notes)?;
    let first = Held::new(first);
    let last = last_wave(alloc, setting, scope, to, delay, last, when, notes)?;
    Ok(both(first.into_inner(), last))
}

/// A process that drives the one signal.
fn driver_process(
    alloc: Global,
    signal: u32,
    reads: Items<SignalName>,
    statement: Statement,
) -> Result<Process, AllocError>
    ensures { IfOk result (λ made. made ≡ driving_process signal reads statement) }
{
    let statement = Held::new(statement);
    let mut drivers = Items::new(alloc);
    drivers.push(signal)?;
    waiting_process(alloc, drivers, reads, statement.into_inner())
}

/// The process of all waveforms.
fn assigning_process(
    alloc: Global,
    signal: u32,
    first: Waves,
    last: Wave,
) -> Result<Process, AllocError>
    ensures { IfOk result (λ made. made ≡ assigning_all signal (first, last)) }
{
    let reads = signals(alloc, &first, &last)?;
    let statement = equivalent(alloc, first, last)?;
    driver_process(alloc, signal, reads, statement)
}

/// The number of the target's signal.
fn signal_part(to: &Part<(u32, Subtype)>) -> Part<u32>
    ensures { result ≡ judged signal_part to.now }
{
    match to {
        Part::Kept((signal, _)) => Part::Kept(*signal),
        Part::Wrong => Part::Wrong,
        Part::Hidden => Part::Hidden,
    }
}

fn assigned(alloc: Global, parts: Part<(u32, (Waves, Wave))>) -> Result<Part<Process>, AllocError>
    ensures { IfOk result (λ made. made ≡ judged assigning_part parts) }
{
    match parts {
        Part::Kept((signal, (first, last))) => {
            Ok(Part::Kept(assigning_process(alloc, signal, first, last)?))
        }
        Part::Wrong => Ok(Part::Wrong),
        Part::Hidden => Ok(Part::Hidden),
    }
}

fn assigning(
    alloc: Global,
    to: &Part<(u32, Subtype)>,
    waves: Part<(Waves, Wave)>,
) -> Result<Part<Process>, AllocError>
    ensures { IfOk result (λ made. made ≡ assigning_parts to.now waves) }
{
    assigned(alloc, both(signal_part(to), waves))
}

/// An assignment behind its target.
fn behind_target(
    alloc: Global,
    setting: &Setting<'_>,
    scope: &Scope,
    place: Place,
    to: &Part<(u32, Subtype)>,
    delay: &Option<DelayMechanism>,
    waveforms: &[ConditionalWaveform],
    last: &[WaveformElement],
    when: &Option<Expr>,
    notes: &mut Notes,
) -> Result<Part<Process>, AllocError>
    requires { IsSoundScope scope.now }
    ensures { Finds (assignment_behind setting.now scope.now place to.now delay.now waveforms.now last.now when.now notes.old) result notes.new }
{
    let waves = all_waves(
        alloc, setting, scope, to, delay, waveforms, last, when, notes,
    )?;
    let made = assigning(alloc, to, waves)?;
    finish(place, made, notes)
}

/// An assignment is a process that assigns whenever a signal of its values or its conditions has an event.
pub fn concurrent_assignment(
    alloc: Global,
    setting: &Setting<'_>,
    scope: &Scope,
    name: Name,
    delay: &Option<DelayMechanism>,
    waveforms: &[ConditionalWaveform],
    last: &[WaveformElement],
    when: &Option<Expr>,
    notes: &mut Notes,
) -> Result<Part<Process>, AllocError>
    requires { IsSoundScope scope.now }
    ensures { Finds (spec.concurrent_assignment setting.now scope.now name delay.now waveforms.now last.now when.now notes.old) result notes.new }
{
    match target(scope, name, notes) {
        Ok(to) => behind_target(
            alloc, setting, scope, name.place, &to, delay, waveforms, last, when, notes,
        ),
        Err(error) => Err(error),
    }
}
