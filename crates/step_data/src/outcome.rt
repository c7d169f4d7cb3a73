//! How a step, a solution, a cycle and a run end.

use fix_core::Tick;

/// Why a step or a solution was refused.
#[derive(Clone, Copy, Debug, PartialEq, Eq)]
pub struct Cause {
    /// The number of the fault, 0 for none.
    pub code: u8,
    /// The column without a pivot where the equations are singular, else 0.
    pub column: u32,
}

/// What became of an attempt.
#[derive(Clone, Copy, Debug, PartialEq, Eq)]
pub enum Kind {
    /// The point at its end is a solution.
    Accepted,
    /// It was refused, and half the step is tried next.
    Rejected,
    /// It was refused, and half the step is below the least step.
    Failed,
}

/// The answer of one step of a given size.
#[derive(Clone, Copy, Debug, PartialEq, Eq)]
pub enum Trial {
    /// A solution, with its error in units of 10^-12.
    Good { err: u128 },
    Refused(Cause),
}

/// Which augmentation set a solution at one time uses (IEEE 1076.1 names the sets).
#[derive(Clone, Copy, Debug, PartialEq, Eq)]
pub enum SetKind {
    Quiescent,
    Discontinuity,
}

/// For which value of DOMAIN the branches of simultaneous if and case statements are chosen.
#[derive(Clone, Copy, Debug, PartialEq, Eq)]
pub enum ChooseKind {
    /// QUIESCENT_DOMAIN.
    Quiet,
    /// TIME_DOMAIN.
    Timed,
}

/// The answer of a solution at one time.
#[derive(Clone, Copy, Debug, PartialEq, Eq)]
pub enum Settled {
    Good,
    Refused(Cause),
}

/// Why a run ends before its stop time.
#[derive(Clone, Copy, Debug, PartialEq, Eq)]
pub struct Refusal {
    pub code: u8,
    /// The process, the selector's unknown, the column or the cause's code, where the refusal has one.
    pub detail: Option<u32>,
}

/// The answer of a cycle of the digital side.
#[derive(Clone, Copy, Debug, PartialEq, Eq)]
pub enum Ran {
    /// Each process reached its wait; `broke` says whether a break was executed.
    Done { broke: bool },
    Refused(Refusal),
}

/// How a run ends.
#[derive(Clone, Copy, Debug, PartialEq, Eq)]
pub enum End {
    /// The stop time was reached.
    Reached(Tick),
    /// The run was refused: at the end of the refused step where a step became too small, else at the digital time.
    Refused { t: Tick, refusal: Refusal },
}

/// The numbers of a run.
#[derive(Clone, Copy, Debug, PartialEq, Eq)]
pub struct Options {
    pub stop: Tick,
    /// The most attempts that are saved ahead.
    pub ahead: u32,
    /// The first step behind a renewed tip, the least and the greatest step, in ticks.
    pub h0: u64,
    pub hmin: u64,
    pub hmax: u64,
    /// The greatest residual and the greatest error of a step, in units of 10^-12.
    pub tol: u64,
    pub ltol: u64,
    /// How near the bounds of a crossing come, in ticks.
    pub xres: u64,
}
