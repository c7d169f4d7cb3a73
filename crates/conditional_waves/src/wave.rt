//! A waveform with its condition (IEEE 1076, 11.6).
ghost use Rattle.std.specs.Prelude.{◌≡◌, ◌++◌, Some, is_some, IfOk, OnOk};
ghost use Rattle.elab_meaning.specs.Parts as parts_spec;
ghost use Rattle.elab_meaning.specs.Parts.{judged};
ghost use Rattle.elab_meaning.specs.declared.part.Part.TheVariants as parts_of;
ghost use Rattle.unit_meaning.specs.Bare as bare;
ghost use Rattle.unit_meaning.specs.Processes as spec;
ghost use Rattle.unit_meaning.specs.Settings as settings;
ghost use Rattle.expr_types.specs.Known.{Finds, IsSoundScope};
ghost use Rattle.conditional_waves.specs.Waves.{wave_parts};

use ams_tree::{ConditionalWaveform, DelayMechanism as Written, Expr, WaveformElement};
use ams_value::ValueType;
use bare_types::add_signals;
use elab_meaning::{Notes, Part};
use flat_expr::{DelayMechanism, FlatExpr, SignalName, Statement, WaveElement};
use held_value::Held;
use name_scope::{Kind, Scope, Subtype};
use sqlite_items::Items;
use statement_parts::{
    RUNNING, Setting, both, condition, mechanism, must_be, range_part, waveform,
};
use std::alloc::{AllocError, Global};
use std::marker::Model;

/// The assignment of a waveform, its condition, and the signals of its values and its condition.
#[derive(Drop)]
pub struct Wave {
    assigns: Statement,
    when: Option<FlatExpr>,
    reads: Items<SignalName>,
}

impl Model for Wave {
    ghost use Rattle.unit_meaning.specs.Processes.{Wave as Meant};
    ghost use Rattle.conditional_waves.specs.Codes.{wave_code};

    ghost Value = { Meant };

    ghost coded = { wave_code };

    ghost view = { λ w. record { assigns = w.assigns; when = w.when; reads = w.reads } };
}

/// The signals that the values of a waveform read.
fn add_value_signals(
    elements: &[WaveElement],
    all: &mut Items<SignalName>,
) -> Result<(), AllocError>
    ensures { OnOk result (all.new ≡ all.old ++ spec.value_signals elements.now) }
{
    for element in elements {
        add_signals(&element.value, all)?;
    }
    Ok(())
}

/// The signals of the values and of the condition.
fn wave_signals(
    alloc: Global,
    elements: &[WaveElement],
    when: &Option<FlatExpr>,
) -> Result<Items<SignalName>, AllocError>
    ensures { IfOk result (λ all. all ≡ spec.value_signals elements.now ++ bare.signals_in_some when.now) }
{
    let mut all = Items::new(alloc);
    add_value_signals(elements, &mut all)?;
    if let Some(when) = when {
        add_signals(when, &mut all)?;
    }
    Ok(all)
}

impl Wave {
    /// The signals of the values and the condition.
    pub fn reads(&self) -> &[SignalName]
        ensures { result.now ≡ self.now.reads }
    {
        self.reads.as_slice()
    }

    pub fn has_condition(&self) -> bool
        ensures { result ≡ is_some self.now.when }
    {
        self.when.is_some()
    }

    /// The assignment, and the condition where there is one.
    pub fn into_parts(self) -> (Statement, Option<FlatExpr>)
        ensures { result ≡ (self.assigns, self.when) }
    {
        let Wave {
            assigns,
            when,
            reads: _,
        } = self;
        (assigns, when)
    }
}

fn waving(
    alloc: Global,
    signal: u32,
    subtype: &Subtype,
    mechanism: DelayMechanism,
    elements: Items<WaveElement>,
    when: Option<FlatExpr>,
) -> Result<Wave, AllocError>
    ensures { IfOk result (λ made. parts_of.Kept made ≡ spec.made_wave (signal, subtype.now) ((mechanism, elements), when)) }
{
    let mechanism = Held::new(mechanism);
    let reads = wave_signals(alloc, elements.as_slice(), &when)?;
    let range = range_part(&subtype.constraint);
    Ok(Wave {
        assigns: Statement::SignalAssignment(signal, range, mechanism.into_inner(), elements),
        when,
        reads,
    })
}

fn wave_part(
    alloc: Global,
    signal: u32,
    subtype: &Subtype,
    parts: Part<((DelayMechanism, Items<WaveElement>), Option<FlatExpr>)>,
) -> Result<Part<Wave>, AllocError>
    ensures { IfOk result (λ made. made ≡ judged (spec.made_wave (signal, subtype.now)) parts) }
{
    match parts {
        Part::Kept(((mechanism, elements), when)) => {
            let made = waving(alloc, signal, subtype, mechanism, elements, when)?;
            Ok(Part::Kept(made))
        }
        Part::Wrong => Ok(Part::Wrong),
        Part::Hidden => Ok(Part::Hidden),
    }
}

fn made_wave(
    alloc: Global,
    to: &Part<(u32, Subtype)>,
    parts: Part<((DelayMechanism, Items<WaveElement>), Option<FlatExpr>)>,
) -> Result<Part<Wave>, AllocError>
    ensures { IfOk result (λ made. made ≡ parts_spec.both spec.made_wave to.now parts) }
{
    match to {
        Part::Kept((signal, subtype)) => wave_part(alloc, *signal, subtype, parts),
        Part::Wrong => match parts {
            Part::Hidden => Ok(Part::Hidden),
            _ => Ok(Part::Wrong),
        },
        Part::Hidden => Ok(Part::Hidden),
    }
}

/// A waveform with the delay mechanism of its statement.
fn wave_parts(
    alloc: Global,
    setting: &Setting<'_>,
    scope: &Scope,
    to: &Part<(u32, Subtype)>,
    delay: &Option<Written>,
    elements: &[WaveformElement],
    notes: &mut Notes,
) -> Result<Part<(DelayMechanism, Items<WaveElement>)>, AllocError>
    requires { IsSoundScope scope.now }
    ensures { Finds (wave_parts setting.now scope.now to.now delay.now elements.now notes.old) result notes.new }
{
    let mechanism = mechanism(alloc, setting, scope, delay, notes)?;
    let mechanism = Held::new(mechanism);
    let elements = waveform(alloc, setting, scope, to, elements, notes)?;
    Ok(both(mechanism.into_inner(), elements))
}

/// The last waveform, with its condition where one is written.
pub fn last_wave(
    alloc: Global,
    setting: &Setting<'_>,
    scope: &Scope,
    to: &Part<(u32, Subtype)>,
    delay: &Option<Written>,
    elements: &[WaveformElement],
    when: &Option<Expr>,
    notes: &mut Notes,
) -> Result<Part<Wave>, AllocError>
    requires { IsSoundScope scope.now }
    ensures { Finds (spec.wave setting.now scope.now to.now delay.now elements.now when.now notes.old) result notes.new }
{
    let made = wave_parts(alloc, setting, scope, to, delay, elements, notes)?;
    let made = Held::new(made);
    let when = condition(alloc, setting, scope, when, notes)?;
    made_wave(alloc, to, both(made.into_inner(), when))
}

/// A condition that is written.
fn written_condition(
    alloc: Global,
    setting: &Setting<'_>,
    scope: &Scope,
    expr: &Expr,
    notes: &mut Notes,
) -> Result<Part<Option<FlatExpr>>, AllocError>
    requires { IsSoundScope scope.now }
    ensures { Finds (settings.condition setting.now scope.now (Some expr.now) notes.old) result notes.new }
{
    let kind = Kind::Of(ValueType::Boolean);
    match must_be(alloc, setting, scope, RUNNING, kind, expr, notes)? {
        Part::Kept(expr) => Ok(Part::Kept(Some(expr))),
        Part::Wrong => Ok(Part::Wrong),
        Part::Hidden => Ok(Part::Hidden),
    }
}

/// A waveform before an `else`.
pub fn conditional(
    alloc: Global,
    setting: &Setting<'_>,
    scope: &Scope,
    to: &Part<(u32, Subtype)>,
    delay: &Option<Written>,
    waveform: &ConditionalWaveform,
    notes: &mut Notes,
) -> Result<Part<Wave>, AllocError>
    requires { IsSoundScope scope.now }
    ensures { Finds (spec.conditional setting.now scope.now to.now delay.now waveform.now notes.old) result notes.new }
{
    let elements = waveform.elements.as_slice();
    let made = wave_parts(alloc, setting, scope, to, delay, elements, notes)?;
    let made = Held::new(made);
    let when = written_condition(alloc, setting, scope, &waveform.condition, notes)?;
    made_wave(alloc, to, both(made.into_inner(), when))
}
