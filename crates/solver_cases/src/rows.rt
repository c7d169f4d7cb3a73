//! Worked rows: what a step or a solution at one time must give, in units of 10^-12.

use message_codes::{ERROR_TOO_LARGE, NO_CONVERGENCE, SINGULAR};
use step_data::{Cause, Kind, Settled, Trial};

/// What a step gives, as a trial and as an attempt.
#[derive(Clone, Copy)]
pub struct StepRow {
    pub trial: Trial,
    pub end: u64,
    pub kind: Kind,
    pub next_h: u64,
    pub x: &'static [i128],
}

/// What a solution at one time gives.
#[derive(Clone, Copy)]
pub struct SettledRow {
    pub settled: Settled,
    pub x: &'static [i128],
}

const OUT_OF_BOUNDS: Cause = Cause {
    code: ERROR_TOO_LARGE,
    column: 0,
};

const WITHOUT_END: Cause = Cause {
    code: NO_CONVERGENCE,
    column: 0,
};

const WITHOUT_DOT: Cause = Cause {
    code: SINGULAR,
    column: 8,
};

// ---- the charged capacitor: vs, js, vr, ir, vc, ic, both references, and vc'dot

const ZEROS: [i128; 9] = [0; 9];

/// The capacitor is empty.
const EMPTY: [i128; 9] = [
    5_000_000_000_000,
    -5_000_000_000,
    5_000_000_000_000,
    5_000_000_000,
    0,
    5_000_000_000,
    5_000_000_000_000,
    0,
    5_000_000_000_000_000_000,
];

const AT_1000: [i128; 9] = [
    5_000_000_000_000,
    -4_995_004_995,
    4_995_004_995_000,
    4_995_004_995,
    4_995_004_995,
    4_995_004_995,
    5_000_000_000_000,
    4_995_004_995,
    4_995_004_995_004_995_005,
];

const AT_3000: [i128; 9] = [
    5_000_000_000_000,
    -4_985_024_965,
    4_985_024_965_000,
    4_985_024_965,
    14_975_034_955,
    4_985_024_965,
    5_000_000_000_000,
    14_975_034_955,
    4_985_024_965_034_965_035,
];

const AT_7000: [i128; 9] = [
    5_000_000_000_000,
    -4_965_124_666,
    4_965_124_666_000,
    4_965_124_666,
    34_875_334_216,
    4_965_124_666,
    5_000_000_000_000,
    34_875_334_216,
    4_965_124_665_633_767_430,
];

/// At 1000 the capacitor is set to 2.0 V; the dot keeps what is left of its rounding.
const AT_TWO_VOLTS: [i128; 9] = [
    5_000_000_000_000,
    -3_000_000_000,
    3_000_000_000_000,
    3_000_000_000,
    2_000_000_000_000,
    3_000_000_000,
    5_000_000_000_000,
    2_000_000_000_000,
    3_000_000_000_004_995_005,
];

/// The quiescent set with the capacitor set to 0.0 V.
pub const EMPTIED: SettledRow = SettledRow {
    settled: Settled::Good,
    x: &EMPTY,
};

/// The quiescent set in which the source has two values, so that the dot has none.
pub const TWO_SOURCES: SettledRow = SettledRow {
    settled: Settled::Refused(WITHOUT_DOT),
    x: &ZEROS,
};

pub const SET_TO_TWO_VOLTS: SettledRow = SettledRow {
    settled: Settled::Good,
    x: &AT_TWO_VOLTS,
};

/// At a discontinuity without break elements the quantities stay.
pub const STAYS: SettledRow = SettledRow {
    settled: Settled::Good,
    x: &AT_1000,
};

/// By backward Euler.
pub const FIRST_STEP: StepRow = StepRow {
    trial: Trial::Good { err: 2_497_502 },
    end: 1000,
    kind: Kind::Accepted,
    next_h: 2000,
    x: &AT_1000,
};

/// By the trapezoidal rule, as each later one.
pub const SECOND_STEP: StepRow = StepRow {
    trial: Trial::Good { err: 9_980_030 },
    end: 3000,
    kind: Kind::Accepted,
    next_h: 4000,
    x: &AT_3000,
};

pub const THIRD_STEP: StepRow = StepRow {
    trial: Trial::Good { err: 39_800_599 },
    end: 7000,
    kind: Kind::Accepted,
    next_h: 8000,
    x: &AT_7000,
};

/// A step of 1 us, whose error is too large.
pub const HALVED: StepRow = StepRow {
    trial: Trial::Refused(OUT_OF_BOUNDS),
    end: 1_000_000,
    kind: Kind::Rejected,
    next_h: 500_000,
    x: &EMPTY,
};

/// The same where half of it is below the least step.
pub const NOT_HALVED: StepRow = StepRow {
    trial: Trial::Refused(OUT_OF_BOUNDS),
    end: 1_000_000,
    kind: Kind::Failed,
    next_h: 1_000_000,
    x: &EMPTY,
};

/// The first step with a tolerance of 10^-12, which its rounded residuals don't meet.
pub const UNSETTLED: StepRow = StepRow {
    trial: Trial::Refused(WITHOUT_END),
    end: 1000,
    kind: Kind::Rejected,
    next_h: 500,
    x: &EMPTY,
};

// ---- the polynomial slope: q and q'dot

const AT_8000: [i128; 2] = [114_000_000_000, 48_000_000_000_000_000_000];

const AT_9000: [i128; 2] = [150_000_000_000, 36_000_000_000_000_000_000];

const AT_9000_BY_TRAPEZOID: [i128; 2] = [156_000_000_000, 36_000_000_000_000_000_000];

/// From 8000 to 10000.
pub const TOO_LONG: StepRow = StepRow {
    trial: Trial::Refused(OUT_OF_BOUNDS),
    end: 10000,
    kind: Kind::Rejected,
    next_h: 1000,
    x: &AT_8000,
};

/// From 8000 to 9000 by backward Euler.
pub const BY_EULER: StepRow = StepRow {
    trial: Trial::Good { err: 6_000_000_000 },
    end: 9000,
    kind: Kind::Accepted,
    next_h: 1000,
    x: &AT_9000,
};

/// The same by the trapezoidal rule.
pub const BY_TRAPEZOID: StepRow = StepRow {
    trial: Trial::Good { err: 6_000_000_000 },
    end: 9000,
    kind: Kind::Accepted,
    next_h: 1000,
    x: &AT_9000_BY_TRAPEZOID,
};

// ---- the chosen level: q

/// The quiescent set with the signal at '0'.
pub const LOW: SettledRow = SettledRow {
    settled: Settled::Good,
    x: &[1_000_000_000_000],
};

/// From 7000, where the signal became '1', to 10000.
pub const RISEN: StepRow = StepRow {
    trial: Trial::Good { err: 0 },
    end: 10000,
    kind: Kind::Accepted,
    next_h: 6000,
    x: &[2_000_000_000_000],
};
