//! The waveforms of an assignment.
ghost use Rattle.std.specs.Prelude.{◌≡◌, [], ◌∷◌, ◌++◌, IfOk, OnOk, IsTrue, ◌↔◌};
ghost use Rattle.elab_meaning.specs.Parts as parts;
ghost use Rattle.statement_parts.specs.Lists.{behind};
ghost use Rattle.unit_meaning.specs.Processes as spec;
ghost use Rattle.unit_meaning.specs.Settings.{listed};
ghost use Rattle.expr_types.specs.Known.{Finds, IsSoundScope};

use crate::wave::{Wave, conditional};
use ams_tree::{ConditionalWaveform, DelayMechanism};
use elab_meaning::{Notes, Part};
use name_scope::{Scope, Subtype};
use statement_parts::{Setting, both};
use std::alloc::{AllocError, Global};
use std::marker::Model;

/// Waveforms in their order. Contracts see them as a list.
#[derive(Drop)]
pub struct Waves {
    all: Vec<Wave>,
}

impl Model for Waves {
    ghost use Rattle.std.specs.Prelude.{List};
    ghost use Rattle.unit_meaning.specs.Processes.{Wave as Meant};
    ghost use Rattle.conditional_waves.specs.Codes.{waves_code};

    ghost Value = { List Meant };

    ghost coded = { waves_code };

    ghost view = { λ w. w.all.items };
}

impl Waves {
    pub fn new(alloc: Global) -> Waves
        ensures { result ≡ [] }
    {
        Waves {
            all: Vec::new(alloc),
        }
    }

    pub fn is_empty(&self) -> bool
        ensures { IsTrue result ↔ (self.now ≡ []) }
    {
        self.all.is_empty()
    }

    pub fn as_slice(&self) -> &[Wave]
        ensures { result.now ≡ self.now }
    {
        self.all.as_slice()
    }

    pub fn into_vec(self) -> Vec<Wave>
        ensures { result.items ≡ self }
    {
        let Waves { all } = self;
        all
    }

    /// Puts a waveform behind the others.
    pub fn with(self, wave: Wave) -> Result<Waves, AllocError>
        ensures { IfOk result (λ all. all ≡ self ++ wave ∷ []) }
    {
        let Waves { mut all } = self;
        all.push(wave)?;
        Ok(Waves { all })
    }
}

/// Puts a waveform behind those before it.
fn put_wave(so_far: Part<Waves>, wave: Part<Wave>) -> Result<Part<Waves>, AllocError>
    ensures { IfOk result (λ all. all ≡ parts.both behind so_far wave) }
{
    match both(so_far, wave) {
        Part::Kept((so_far, wave)) => Ok(Part::Kept(so_far.with(wave)?)),
        Part::Wrong => Ok(Part::Wrong),
        Part::Hidden => Ok(Part::Hidden),
    }
}

/// The waveforms before an `else`.
#[tactic(auto, using(statement_parts::proofs::Puts::put_ahead, statement_parts::proofs::Puts::put_none, statement_parts::proofs::Puts::put_first))]
pub fn conditionals(
    alloc: Global,
    setting: &Setting<'_>,
    scope: &Scope,
    to: &Part<(u32, Subtype)>,
    delay: &Option<DelayMechanism>,
    waveforms: &[ConditionalWaveform],
    notes: &mut Notes,
) -> Result<Part<Waves>, AllocError>
    requires { IsSoundScope scope.now }
    ensures { Finds (listed (spec.conditional setting.now scope.now to.now delay.now) waveforms.now notes.old) result notes.new }
{
    let mut all = Part::Kept(Waves::new(alloc));
    for waveform in waveforms {
        let one = conditional(alloc, setting, scope, to, delay, waveform, notes)?;
        all = put_wave(all, one)?;
    }
    Ok(all)
}
