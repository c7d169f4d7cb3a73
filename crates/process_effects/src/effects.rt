//! What a process may change.
ghost use Rattle.std.specs.Prelude.{◌≡◌, ◌<◌, ◌≤◌, length, OnOk, OnErr};
ghost use Rattle.std.specs.List.{All, slice_get};
ghost use Rattle.waveform.specs.Projected.{IsRising};
ghost use Rattle.cycle_meaning.specs.Statements.{constraint_of, with_report, with_elements};
ghost use Rattle.process_ready.specs.Allowed.{IsDriven};
ghost use Rattle.process_effects.specs.Effects.{with_variable, with_waveform};

use ams_value::Val;
use flat_expr::Constraint;
use statement_values::Activation;
use std::alloc::AllocError;
use step_data::{BreakList, Element, Trans};
use waveform::DelayKind;

/// The world and the variables of a process that runs. What stays the same while it runs is its context.
pub trait Effects: Activation {
    /// The declared subtype of a signal.
    fn constraint(&self, signal: u32) -> Constraint
        ensures { result ≡ constraint_of (slice_get (Self.context self.now).objects.signals signal) };

    /// The break elements of this cycle so far.
    fn elements(&self) -> &[Element]
        ensures { result.now ≡ (Self.local self.now).world.elements };

    /// Gives a variable a value.
    fn set_variable(&mut self, number: u32, value: Val)
        requires { number < length (Self.local self.old).variables }
        ensures context { Self.context self.new ≡ Self.context self.old }
        ensures local { Self.local self.new ≡ with_variable number value (Self.local self.old) };

    /// Assigns a waveform to a signal that the process drives.
    fn assign(
        &mut self,
        signal: u32,
        kind: DelayKind,
        reject: u64,
        new: &[Trans],
    ) -> Result<(), AllocError>
        requires driven { IsDriven (Self.context self.old) signal }
        requires some { 0 < length new.now }
        requires rising { IsRising new.now }
        requires later { All (λ x. (Self.context self.old).t ≤ x.at) new.now }
        ensures context { Self.context self.new ≡ Self.context self.old }
        ensures ok { OnOk result (Self.local self.new ≡ with_waveform (Self.context self.old) signal kind reject new.now (Self.local self.old)) }
        ensures err { OnErr result ((Self.local self.new).world.events ≡ (Self.local self.old).world.events) };

    /// Adds the event of a report.
    fn report(&mut self, severity: u8, text: &[u8]) -> Result<(), AllocError>
        ensures context { Self.context self.new ≡ Self.context self.old }
        ensures ok { OnOk result (Self.local self.new ≡ with_report (Self.context self.old) severity text.now (Self.local self.old)) }
        ensures err { OnErr result ((Self.local self.new).world.events ≡ (Self.local self.old).world.events) };

    /// Executes a break: adds these elements to those of the cycle, and the event of the break.
    fn execute(&mut self, made: &BreakList) -> Result<(), AllocError>
        ensures context { Self.context self.new ≡ Self.context self.old }
        ensures ok { OnOk result (Self.local self.new ≡ with_elements (Self.context self.old) made.now (Self.local self.old)) }
        ensures err { OnErr result ((Self.local self.new).world.events ≡ (Self.local self.old).world.events) };
}
