//! Worked rows: what a design lists, and what a run of it gives.

use message_codes::{ERROR_TOO_LARGE, VALUE_DIVIDE_BY_ZERO};

/// A step that is listed. One that has risen gained one million a second since time 0.
#[derive(Clone, Copy)]
pub enum Step {
    Landed {
        from: u64,
        size: u64,
        units: i64,
        err: u64,
    },
    Refused {
        from: u64,
        size: u64,
        code: u8,
    },
    Risen {
        from: u32,
        size: u32,
    },
}

/// What a cycle gives.
#[derive(Clone, Copy)]
pub enum Gives {
    Domain,
    Cross { k: u32, on: bool },
    Bit { value: bool },
    Real { units: i64 },
    Break { elements: u8 },
}

/// A cycle that is listed: what stands behind it are the next time, what equations read, and the thresholds.
#[derive(Clone, Copy)]
pub struct Cycle {
    pub given: &'static [Gives],
    pub next: Option<u64>,
    pub units: i64,
    pub levels: &'static [(i64, bool)],
}

/// An event, without its lists.
#[derive(Clone, Copy, Debug, PartialEq, Eq)]
pub enum Line {
    Point { t: u64, n: u32, units: i128 },
    Domain { t: u64, n: u32 },
    Cross { t: u64, n: u32, k: u32, on: bool },
    Bit { t: u64, n: u32, value: bool },
    Real { t: u64, n: u32, units: i128 },
    Broke { t: u64, n: u32, elements: usize },
    Other,
}

/// What a move says.
#[derive(Clone, Copy)]
pub enum Says {
    None,
    Begin,
    Look { until: u64 },
    Consume,
    Reached { t: u64 },
    StepTooSmall { t: u64, cause: u8 },
}

/// A move that comes so many times: what it says, the events so far, the time and the step of the tip, and how many own
/// attempts and cycles there were.
pub type Move = (usize, Says, usize, u64, u64, u64, u32);

/// A design, its options, and what a run gives in which no look finds anything.
#[derive(Clone, Copy)]
pub struct Row {
    pub steps: &'static [Step],
    pub solutions: &'static [(u64, i64)],
    pub cycles: &'static [Cycle],
    pub reads: bool,
    pub stop: u64,
    /// The first step, which is the greatest, and the least step.
    pub first: u64,
    pub least: u64,
    pub ltol: u64,
    pub lines: &'static [Line],
    pub moves: &'static [Move],
}

/// A quantity that rises by one million a second crosses its threshold between two attempts; a signal follows it.
pub const ONE_CROSSING: Row = Row {
    steps: &[
        Step::Risen {
            from: 0,
            size: 200_000,
        },
        Step::Risen {
            from: 200_000,
            size: 200_000,
        },
        Step::Risen {
            from: 400_000,
            size: 200_000,
        },
        Step::Risen {
            from: 400_000,
            size: 100_000,
        },
        Step::Risen {
            from: 400_000,
            size: 150_000,
        },
        Step::Risen {
            from: 400_000,
            size: 125_000,
        },
        Step::Risen {
            from: 400_000,
            size: 112_500,
        },
        Step::Risen {
            from: 400_000,
            size: 106_250,
        },
        Step::Risen {
            from: 400_000,
            size: 103_125,
        },
        Step::Risen {
            from: 400_000,
            size: 101_562,
        },
        Step::Risen {
            from: 400_000,
            size: 100_781,
        },
        Step::Risen {
            from: 400_000,
            size: 100_390,
        },
        Step::Risen {
            from: 400_000,
            size: 100_195,
        },
        Step::Risen {
            from: 400_000,
            size: 100_097,
        },
        Step::Risen {
            from: 400_000,
            size: 100_048,
        },
        Step::Risen {
            from: 400_000,
            size: 100_024,
        },
        Step::Risen {
            from: 400_000,
            size: 100_012,
        },
        Step::Risen {
            from: 400_000,
            size: 100_006,
        },
        Step::Risen {
            from: 400_000,
            size: 100_003,
        },
        Step::Risen {
            from: 400_000,
            size: 100_001,
        },
        Step::Risen {
            from: 600_000,
            size: 200_000,
        },
    ],
    solutions: &[(0, 0)],
    cycles: &[
        Cycle {
            given: &[Gives::Break { elements: 1 }],
            next: Some(0),
            units: 0,
            levels: &[(500_000_000_000, false)],
        },
        Cycle {
            given: &[],
            next: None,
            units: 0,
            levels: &[(500_000_000_000, false)],
        },
        Cycle {
            given: &[Gives::Domain],
            next: None,
            units: 0,
            levels: &[(500_000_000_000, false)],
        },
        Cycle {
            given: &[Gives::Cross { k: 0, on: true }],
            next: Some(500_001),
            units: 0,
            levels: &[(500_000_000_000, true)],
        },
        Cycle {
            given: &[Gives::Bit { value: true }],
            next: None,
            units: 0,
            levels: &[(500_000_000_000, true)],
        },
    ],
    reads: false,
    stop: 800_000,
    first: 200_000,
    least: 200_000,
    ltol: 1_000_000_000,
    lines: &[
        Line::Broke {
            t: 0,
            n: 0,
            elements: 1,
        },
        Line::Point {
            t: 0,
            n: 1,
            units: 0,
        },
        Line::Domain { t: 0, n: 2 },
        Line::Point {
            t: 200_000,
            n: 0,
            units: 200_000_000_000,
        },
        Line::Point {
            t: 400_000,
            n: 0,
            units: 400_000_000_000,
        },
        Line::Point {
            t: 500_001,
            n: 0,
            units: 500_001_000_000,
        },
        Line::Cross {
            t: 500_001,
            n: 0,
            k: 0,
            on: true,
        },
        Line::Bit {
            t: 500_001,
            n: 1,
            value: true,
        },
        Line::Point {
            t: 600_000,
            n: 0,
            units: 600_000_000_000,
        },
        Line::Point {
            t: 800_000,
            n: 0,
            units: 800_000_000_000,
        },
    ],
    moves: &[
        (1, Says::None, 1, 0, 200_000, 0, 0),
        (1, Says::None, 2, 0, 200_000, 0, 0),
        (1, Says::None, 2, 0, 200_000, 0, 1),
        (1, Says::Begin, 3, 0, 200_000, 0, 2),
        (1, Says::Look { until: 800_000 }, 3, 0, 200_000, 0, 2),
        (1, Says::Consume, 4, 0, 200_000, 1, 2),
        (1, Says::Look { until: 800_000 }, 4, 200_000, 200_000, 1, 2),
        (1, Says::Consume, 5, 200_000, 200_000, 2, 2),
        (1, Says::Look { until: 800_000 }, 5, 400_000, 200_000, 2, 2),
        (1, Says::None, 5, 400_000, 200_000, 3, 2),
        (16, Says::None, 5, 400_000, 200_000, 3, 2),
        (1, Says::None, 6, 400_000, 200_000, 3, 2),
        (1, Says::None, 7, 400_000, 200_000, 3, 3),
        (1, Says::None, 8, 400_000, 200_000, 3, 4),
        (1, Says::Look { until: 800_000 }, 8, 400_000, 200_000, 3, 4),
        (1, Says::Consume, 9, 400_000, 200_000, 4, 4),
        (1, Says::Look { until: 800_000 }, 9, 600_000, 200_000, 4, 4),
        (1, Says::Consume, 10, 600_000, 200_000, 5, 4),
        (1, Says::Reached { t: 800_000 }, 10, 800_000, 200_000, 5, 4),
    ],
};

/// Two crossings in one step: behind the first the tip stays, and two thresholds change at the second.
pub const TWO_CROSSINGS: Row = Row {
    steps: &[
        Step::Risen {
            from: 0,
            size: 5000,
        },
        Step::Risen {
            from: 0,
            size: 2500,
        },
        Step::Risen {
            from: 0,
            size: 3750,
        },
        Step::Risen {
            from: 0,
            size: 3125,
        },
        Step::Risen {
            from: 0,
            size: 2812,
        },
        Step::Risen {
            from: 0,
            size: 2968,
        },
        Step::Risen {
            from: 0,
            size: 3046,
        },
        Step::Risen {
            from: 0,
            size: 3007,
        },
        Step::Risen {
            from: 0,
            size: 2987,
        },
        Step::Risen {
            from: 0,
            size: 2997,
        },
        Step::Risen {
            from: 0,
            size: 3002,
        },
        Step::Risen {
            from: 0,
            size: 2999,
        },
        Step::Risen {
            from: 0,
            size: 3000,
        },
        Step::Risen {
            from: 0,
            size: 3001,
        },
        Step::Risen {
            from: 0,
            size: 4000,
        },
        Step::Risen {
            from: 0,
            size: 3500,
        },
        Step::Risen {
            from: 0,
            size: 3250,
        },
        Step::Risen {
            from: 0,
            size: 3187,
        },
        Step::Risen {
            from: 0,
            size: 3218,
        },
        Step::Risen {
            from: 0,
            size: 3202,
        },
        Step::Risen {
            from: 0,
            size: 3194,
        },
        Step::Risen {
            from: 0,
            size: 3198,
        },
        Step::Risen {
            from: 0,
            size: 3200,
        },
        Step::Risen {
            from: 0,
            size: 3201,
        },
    ],
    solutions: &[(0, 0)],
    cycles: &[
        Cycle {
            given: &[Gives::Break { elements: 1 }],
            next: None,
            units: 0,
            levels: &[
                (3_000_000_000, false),
                (3_200_000_000, false),
                (3_200_500_000, false),
            ],
        },
        Cycle {
            given: &[],
            next: None,
            units: 0,
            levels: &[
                (3_000_000_000, false),
                (3_200_000_000, false),
                (3_200_500_000, false),
            ],
        },
        Cycle {
            given: &[Gives::Domain],
            next: None,
            units: 0,
            levels: &[
                (3_000_000_000, false),
                (3_200_000_000, false),
                (3_200_500_000, false),
            ],
        },
        Cycle {
            given: &[Gives::Cross { k: 0, on: true }],
            next: None,
            units: 0,
            levels: &[
                (3_000_000_000, true),
                (3_200_000_000, false),
                (3_200_500_000, false),
            ],
        },
        Cycle {
            given: &[
                Gives::Cross { k: 1, on: true },
                Gives::Cross { k: 2, on: true },
            ],
            next: None,
            units: 0,
            levels: &[
                (3_000_000_000, true),
                (3_200_000_000, true),
                (3_200_500_000, true),
            ],
        },
    ],
    reads: false,
    stop: 5000,
    first: 5000,
    least: 5000,
    ltol: 1_000_000_000,
    lines: &[
        Line::Broke {
            t: 0,
            n: 0,
            elements: 1,
        },
        Line::Point {
            t: 0,
            n: 1,
            units: 0,
        },
        Line::Domain { t: 0, n: 2 },
        Line::Point {
            t: 3001,
            n: 0,
            units: 3_001_000_000,
        },
        Line::Cross {
            t: 3001,
            n: 0,
            k: 0,
            on: true,
        },
        Line::Point {
            t: 3201,
            n: 0,
            units: 3_201_000_000,
        },
        Line::Cross {
            t: 3201,
            n: 0,
            k: 1,
            on: true,
        },
        Line::Cross {
            t: 3201,
            n: 0,
            k: 2,
            on: true,
        },
        Line::Point {
            t: 5000,
            n: 0,
            units: 5_000_000_000,
        },
    ],
    moves: &[
        (1, Says::None, 1, 0, 5000, 0, 0),
        (1, Says::None, 2, 0, 5000, 0, 0),
        (1, Says::None, 2, 0, 5000, 0, 1),
        (1, Says::Begin, 3, 0, 5000, 0, 2),
        (1, Says::Look { until: 5000 }, 3, 0, 5000, 0, 2),
        (1, Says::None, 3, 0, 5000, 1, 2),
        (12, Says::None, 3, 0, 5000, 1, 2),
        (1, Says::None, 4, 0, 5000, 1, 2),
        (1, Says::None, 5, 0, 5000, 1, 3),
        (1, Says::Look { until: 5000 }, 5, 0, 5000, 1, 3),
        (1, Says::None, 5, 0, 5000, 2, 3),
        (10, Says::None, 5, 0, 5000, 2, 3),
        (1, Says::None, 6, 0, 5000, 2, 3),
        (1, Says::None, 8, 0, 5000, 2, 4),
        (1, Says::Look { until: 5000 }, 8, 0, 5000, 2, 4),
        (1, Says::Consume, 9, 0, 5000, 3, 4),
        (1, Says::Reached { t: 5000 }, 9, 5000, 5000, 3, 4),
    ],
};

/// The side step from 5 ns to 7 ns is refused, and its half is tried; the attempt from 8 ns to 10 ns is rejected.
pub const REFUSED_SIDE_STEP: Row = Row {
    steps: &[
        Step::Landed {
            from: 0,
            size: 5000,
            units: 0,
            err: 0,
        },
        Step::Refused {
            from: 5000,
            size: 2000,
            code: ERROR_TOO_LARGE,
        },
        Step::Landed {
            from: 5000,
            size: 1000,
            units: 12_000_000_000,
            err: 12_000_000_000,
        },
        Step::Landed {
            from: 6000,
            size: 1000,
            units: 45_000_000_000,
            err: 9_000_000_000,
        },
        Step::Landed {
            from: 7000,
            size: 1000,
            units: 90_000_000_000,
            err: 3_000_000_000,
        },
        Step::Refused {
            from: 8000,
            size: 2000,
            code: ERROR_TOO_LARGE,
        },
        Step::Landed {
            from: 8000,
            size: 1000,
            units: 132_000_000_000,
            err: 6_000_000_000,
        },
        Step::Landed {
            from: 9000,
            size: 1000,
            units: 150_000_000_000,
            err: 18_000_000_000,
        },
    ],
    solutions: &[(0, 0)],
    cycles: &[
        Cycle {
            given: &[Gives::Break { elements: 1 }],
            next: Some(7000),
            units: 0,
            levels: &[],
        },
        Cycle {
            given: &[],
            next: Some(7000),
            units: 0,
            levels: &[],
        },
        Cycle {
            given: &[Gives::Domain],
            next: Some(7000),
            units: 0,
            levels: &[],
        },
        Cycle {
            given: &[Gives::Bit { value: true }],
            next: None,
            units: 0,
            levels: &[],
        },
    ],
    reads: false,
    stop: 10_000,
    first: 5000,
    least: 1,
    ltol: 20_000_000_000,
    lines: &[
        Line::Broke {
            t: 0,
            n: 0,
            elements: 1,
        },
        Line::Point {
            t: 0,
            n: 1,
            units: 0,
        },
        Line::Domain { t: 0, n: 2 },
        Line::Point {
            t: 5000,
            n: 0,
            units: 0,
        },
        Line::Point {
            t: 6000,
            n: 0,
            units: 12_000_000_000,
        },
        Line::Point {
            t: 7000,
            n: 0,
            units: 45_000_000_000,
        },
        Line::Bit {
            t: 7000,
            n: 0,
            value: true,
        },
        Line::Point {
            t: 8000,
            n: 0,
            units: 90_000_000_000,
        },
        Line::Point {
            t: 9000,
            n: 0,
            units: 132_000_000_000,
        },
        Line::Point {
            t: 10_000,
            n: 0,
            units: 150_000_000_000,
        },
    ],
    moves: &[
        (1, Says::None, 1, 0, 5000, 0, 0),
        (1, Says::None, 2, 0, 5000, 0, 0),
        (1, Says::None, 2, 0, 5000, 0, 1),
        (1, Says::Begin, 3, 0, 5000, 0, 2),
        (1, Says::Look { until: 7000 }, 3, 0, 5000, 0, 2),
        (1, Says::Consume, 4, 0, 5000, 1, 2),
        (1, Says::Begin, 4, 5000, 1000, 1, 2),
        (1, Says::Look { until: 7000 }, 4, 5000, 1000, 1, 2),
        (1, Says::Consume, 5, 5000, 1000, 2, 2),
        (1, Says::Look { until: 7000 }, 5, 6000, 1000, 2, 2),
        (1, Says::Consume, 6, 6000, 1000, 3, 2),
        (1, Says::None, 7, 7000, 1000, 3, 3),
        (1, Says::Look { until: 10_000 }, 7, 7000, 1000, 3, 3),
        (1, Says::Consume, 8, 7000, 1000, 4, 3),
        (1, Says::Look { until: 10_000 }, 8, 8000, 2000, 4, 3),
        (1, Says::Consume, 8, 8000, 2000, 5, 3),
        (1, Says::Look { until: 10_000 }, 8, 8000, 1000, 5, 3),
        (1, Says::Consume, 9, 8000, 1000, 6, 3),
        (1, Says::Look { until: 10_000 }, 9, 9000, 1000, 6, 3),
        (1, Says::Consume, 10, 9000, 1000, 7, 3),
        (1, Says::Reached { t: 10_000 }, 10, 10_000, 1000, 7, 3),
    ],
};

/// What equations read changes at 12 ns with a break: the run settles there, and the attempts begin anew.
pub const BREAK: Row = Row {
    steps: &[
        Step::Landed {
            from: 0,
            size: 5000,
            units: 66_666_666_667,
            err: 0,
        },
        Step::Landed {
            from: 5000,
            size: 5000,
            units: 100_000_000_000,
            err: 0,
        },
        Step::Landed {
            from: 10_000,
            size: 2000,
            units: 125_000_000_000,
            err: 0,
        },
        Step::Landed {
            from: 12_000,
            size: 5000,
            units: 30_303_030_303,
            err: 0,
        },
        Step::Landed {
            from: 17_000,
            size: 5000,
            units: 35_714_285_714,
            err: 0,
        },
        Step::Landed {
            from: 22_000,
            size: 3000,
            units: 40_000_000_000,
            err: 0,
        },
    ],
    solutions: &[(0, 50_000_000_000), (12_000, 26_315_789_474)],
    cycles: &[
        Cycle {
            given: &[Gives::Break { elements: 0 }],
            next: Some(12_000),
            units: 20_000_000_000_000,
            levels: &[],
        },
        Cycle {
            given: &[],
            next: Some(12_000),
            units: 20_000_000_000_000,
            levels: &[],
        },
        Cycle {
            given: &[Gives::Domain],
            next: Some(12_000),
            units: 20_000_000_000_000,
            levels: &[],
        },
        Cycle {
            given: &[
                Gives::Real {
                    units: 50_000_000_000_000,
                },
                Gives::Break { elements: 0 },
            ],
            next: None,
            units: 50_000_000_000_000,
            levels: &[],
        },
        Cycle {
            given: &[],
            next: None,
            units: 50_000_000_000_000,
            levels: &[],
        },
    ],
    reads: true,
    stop: 25_000,
    first: 5000,
    least: 5000,
    ltol: 1_000_000_000,
    lines: &[
        Line::Broke {
            t: 0,
            n: 0,
            elements: 0,
        },
        Line::Point {
            t: 0,
            n: 1,
            units: 50_000_000_000,
        },
        Line::Domain { t: 0, n: 2 },
        Line::Point {
            t: 5000,
            n: 0,
            units: 66_666_666_667,
        },
        Line::Point {
            t: 10_000,
            n: 0,
            units: 100_000_000_000,
        },
        Line::Point {
            t: 12_000,
            n: 0,
            units: 125_000_000_000,
        },
        Line::Real {
            t: 12_000,
            n: 0,
            units: 50_000_000_000_000,
        },
        Line::Broke {
            t: 12_000,
            n: 0,
            elements: 0,
        },
        Line::Point {
            t: 12_000,
            n: 1,
            units: 26_315_789_474,
        },
        Line::Point {
            t: 17_000,
            n: 0,
            units: 30_303_030_303,
        },
        Line::Point {
            t: 22_000,
            n: 0,
            units: 35_714_285_714,
        },
        Line::Point {
            t: 25_000,
            n: 0,
            units: 40_000_000_000,
        },
    ],
    moves: &[
        (1, Says::None, 1, 0, 5000, 0, 0),
        (1, Says::None, 2, 0, 5000, 0, 0),
        (1, Says::None, 2, 0, 5000, 0, 1),
        (1, Says::Begin, 3, 0, 5000, 0, 2),
        (1, Says::Look { until: 12_000 }, 3, 0, 5000, 0, 2),
        (1, Says::Consume, 4, 0, 5000, 1, 2),
        (1, Says::Look { until: 12_000 }, 4, 5000, 5000, 1, 2),
        (1, Says::Consume, 5, 5000, 5000, 2, 2),
        (1, Says::None, 6, 10_000, 5000, 2, 2),
        (1, Says::None, 8, 10_000, 5000, 2, 3),
        (1, Says::Begin, 9, 12_000, 5000, 2, 3),
        (1, Says::None, 9, 12_000, 5000, 2, 4),
        (1, Says::Look { until: 25_000 }, 9, 12_000, 5000, 2, 4),
        (1, Says::Consume, 10, 12_000, 5000, 3, 4),
        (1, Says::Look { until: 25_000 }, 10, 17_000, 5000, 3, 4),
        (1, Says::Consume, 11, 17_000, 5000, 4, 4),
        (1, Says::None, 12, 22_000, 5000, 4, 4),
        (1, Says::Reached { t: 25_000 }, 12, 22_000, 5000, 4, 4),
    ],
};

/// What equations read changes at 12 ns. Ahead of it lies an attempt whose step divides by zero, which a run never comes to: the
/// attempts begin anew at 12 ns.
pub const FAILURE_AHEAD: Row = Row {
    steps: &[
        Step::Landed {
            from: 0,
            size: 5000,
            units: 66_666_666_667,
            err: 0,
        },
        Step::Landed {
            from: 5000,
            size: 5000,
            units: 100_000_000_000,
            err: 0,
        },
        Step::Refused {
            from: 10_000,
            size: 5000,
            code: VALUE_DIVIDE_BY_ZERO,
        },
        Step::Landed {
            from: 10_000,
            size: 2000,
            units: 125_000_000_000,
            err: 0,
        },
        Step::Landed {
            from: 12_000,
            size: 5000,
            units: 30_303_030_303,
            err: 0,
        },
        Step::Landed {
            from: 17_000,
            size: 5000,
            units: 35_714_285_714,
            err: 0,
        },
        Step::Landed {
            from: 22_000,
            size: 3000,
            units: 40_000_000_000,
            err: 0,
        },
    ],
    solutions: &[(0, 50_000_000_000)],
    cycles: &[
        Cycle {
            given: &[Gives::Break { elements: 0 }],
            next: Some(12_000),
            units: 20_000_000_000_000,
            levels: &[],
        },
        Cycle {
            given: &[],
            next: Some(12_000),
            units: 20_000_000_000_000,
            levels: &[],
        },
        Cycle {
            given: &[Gives::Domain],
            next: Some(12_000),
            units: 20_000_000_000_000,
            levels: &[],
        },
        Cycle {
            given: &[Gives::Real {
                units: 50_000_000_000_000,
            }],
            next: None,
            units: 50_000_000_000_000,
            levels: &[],
        },
    ],
    reads: true,
    stop: 25_000,
    first: 5000,
    least: 5000,
    ltol: 1_000_000_000,
    lines: &[
        Line::Broke {
            t: 0,
            n: 0,
            elements: 0,
        },
        Line::Point {
            t: 0,
            n: 1,
            units: 50_000_000_000,
        },
        Line::Domain { t: 0, n: 2 },
        Line::Point {
            t: 5000,
            n: 0,
            units: 66_666_666_667,
        },
        Line::Point {
            t: 10_000,
            n: 0,
            units: 100_000_000_000,
        },
        Line::Point {
            t: 12_000,
            n: 0,
            units: 125_000_000_000,
        },
        Line::Real {
            t: 12_000,
            n: 0,
            units: 50_000_000_000_000,
        },
        Line::Point {
            t: 17_000,
            n: 0,
            units: 30_303_030_303,
        },
        Line::Point {
            t: 22_000,
            n: 0,
            units: 35_714_285_714,
        },
        Line::Point {
            t: 25_000,
            n: 0,
            units: 40_000_000_000,
        },
    ],
    moves: &[
        (1, Says::None, 1, 0, 5000, 0, 0),
        (1, Says::None, 2, 0, 5000, 0, 0),
        (1, Says::None, 2, 0, 5000, 0, 1),
        (1, Says::Begin, 3, 0, 5000, 0, 2),
        (1, Says::Look { until: 12_000 }, 3, 0, 5000, 0, 2),
        (1, Says::Consume, 4, 0, 5000, 1, 2),
        (1, Says::Look { until: 12_000 }, 4, 5000, 5000, 1, 2),
        (1, Says::Consume, 5, 5000, 5000, 2, 2),
        (1, Says::None, 6, 10_000, 5000, 2, 2),
        (1, Says::Begin, 7, 12_000, 5000, 2, 3),
        (1, Says::Look { until: 25_000 }, 7, 12_000, 5000, 2, 3),
        (1, Says::Consume, 8, 12_000, 5000, 3, 3),
        (1, Says::Look { until: 25_000 }, 8, 17_000, 5000, 3, 3),
        (1, Says::Consume, 9, 17_000, 5000, 4, 3),
        (1, Says::None, 10, 22_000, 5000, 4, 3),
        (1, Says::Reached { t: 25_000 }, 10, 22_000, 5000, 4, 3),
    ],
};

/// A failed attempt ends the run.
pub const FAILED_ATTEMPT: Row = Row {
    steps: &[
        Step::Landed {
            from: 0,
            size: 5000,
            units: 66_666_666_667,
            err: 0,
        },
        Step::Landed {
            from: 5000,
            size: 5000,
            units: 100_000_000_000,
            err: 0,
        },
        Step::Landed {
            from: 10_000,
            size: 5000,
            units: 200_000_000_000,
            err: 0,
        },
        Step::Refused {
            from: 15_000,
            size: 5000,
            code: VALUE_DIVIDE_BY_ZERO,
        },
    ],
    solutions: &[(0, 50_000_000_000)],
    cycles: &[
        Cycle {
            given: &[Gives::Break { elements: 0 }],
            next: None,
            units: 20_000_000_000_000,
            levels: &[],
        },
        Cycle {
            given: &[],
            next: None,
            units: 20_000_000_000_000,
            levels: &[],
        },
        Cycle {
            given: &[Gives::Domain],
            next: None,
            units: 20_000_000_000_000,
            levels: &[],
        },
    ],
    reads: true,
    stop: 25_000,
    first: 5000,
    least: 5000,
    ltol: 1_000_000_000,
    lines: &[
        Line::Broke {
            t: 0,
            n: 0,
            elements: 0,
        },
        Line::Point {
            t: 0,
            n: 1,
            units: 50_000_000_000,
        },
        Line::Domain { t: 0, n: 2 },
        Line::Point {
            t: 5000,
            n: 0,
            units: 66_666_666_667,
        },
        Line::Point {
            t: 10_000,
            n: 0,
            units: 100_000_000_000,
        },
        Line::Point {
            t: 15_000,
            n: 0,
            units: 200_000_000_000,
        },
    ],
    moves: &[
        (1, Says::None, 1, 0, 5000, 0, 0),
        (1, Says::None, 2, 0, 5000, 0, 0),
        (1, Says::None, 2, 0, 5000, 0, 1),
        (1, Says::Begin, 3, 0, 5000, 0, 2),
        (1, Says::Look { until: 25_000 }, 3, 0, 5000, 0, 2),
        (1, Says::Consume, 4, 0, 5000, 1, 2),
        (1, Says::Look { until: 25_000 }, 4, 5000, 5000, 1, 2),
        (1, Says::Consume, 5, 5000, 5000, 2, 2),
        (1, Says::Look { until: 25_000 }, 5, 10_000, 5000, 2, 2),
        (1, Says::Consume, 6, 10_000, 5000, 3, 2),
        (1, Says::Look { until: 25_000 }, 6, 15_000, 5000, 3, 2),
        (1, Says::Consume, 6, 15_000, 5000, 4, 2),
        (
            1,
            Says::StepTooSmall {
                t: 20_000,
                cause: VALUE_DIVIDE_BY_ZERO,
            },
            6,
            15_000,
            5000,
            4,
            2,
        ),
    ],
};
