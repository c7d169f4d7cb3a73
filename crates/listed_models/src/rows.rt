//! What a test lists of its design. It has one unknown, at most one signal that equations read, and thresholds of the unknown.

ghost use Rattle.std.specs.Prelude.{◌≡◌, ◌<◌, ◌++◌, ◌∷◌, [], All, OnOk, OnErr};

use ams_value::Val;
use fix_core::{Fix, Tick};
use std::alloc::{AllocError, Global};
use std::marker::Model;
use step_data::{BreakList, Cause, Element, ThresholdList, ThresholdState};

/// Where a step leads.
#[derive(Clone, Copy)]
pub enum StepAnswer {
    /// The value at its end, and its error in units of 10^-12.
    Landed { value: Fix, err: u64 },
    Refused(Cause),
}

/// A step that is listed: from a time, of so many ticks. One that isn't listed is refused.
#[derive(Clone, Copy)]
pub struct StepRow {
    pub from: Tick,
    pub size: u64,
    pub answer: StepAnswer,
}

/// A solution that is listed: the value at a time. One that isn't listed is refused.
#[derive(Clone, Copy)]
pub struct SolutionRow {
    pub at: Tick,
    pub value: Fix,
}

/// What a cycle gives, at its time and delta.
#[derive(Clone, Copy)]
pub enum Given {
    /// DOMAIN becomes TIME_DOMAIN.
    Domain,
    Cross { k: u32, on: bool },
    Signal { value: Val },
    /// A break with this element, or with none.
    Broke { element: Option<Element> },
}

/// Thresholds of the unknown, with the values that they have.
#[derive(Drop)]
pub struct Levels {
    thresholds: ThresholdList,
}

impl Model for Levels {
    ghost use Rattle.std.specs.Prelude.{List, All, ◌<◌};
    ghost use Rattle.step_data.specs.declared.breaks.ThresholdState.{ThresholdState};

    ghost Value = { List ThresholdState };

    ghost view = { λ a. a.thresholds };

    ghost invariant = { λ a. All (λ threshold. threshold.unknown < 1) a.thresholds };
}

impl Levels {
    /// None.
    pub fn new(alloc: Global) -> Levels
        ensures { result ≡ [] }
    {
        Levels {
            thresholds: ThresholdList::new(alloc),
        }
    }

    /// Adds a threshold at a level; where no memory is found the list stays as it is.
    pub fn push(&mut self, level: Fix, on: bool) -> Result<(), AllocError>
        ensures ok { OnOk result (self.new ≡ self.old ++ record { unknown = 0; level = level; on = on } ∷ []) }
        ensures err { OnErr result (self.new ≡ self.old) }
    {
        self.thresholds.push(ThresholdState {
            unknown: 0,
            level,
            on,
        })
    }

    /// The thresholds.
    pub fn as_list(&self) -> &ThresholdList
        ensures value { result.now ≡ self.now }
        ensures unknowns { All (λ threshold. threshold.unknown < 1) result.now }
    {
        &self.thresholds
    }
}

/// A cycle that is listed: what it gives, and what stands behind it. The first one is the start.
#[derive(Drop)]
pub struct CycleRow {
    pub given: Vec<Given>,
    /// It executed a break, with these elements.
    pub broke: bool,
    pub breaks: BreakList,
    /// The least time at which something is pending, unless that is over.
    pub next: Option<Tick>,
    /// The signal that equations read, where there is one.
    pub value: Val,
    pub levels: Levels,
}
