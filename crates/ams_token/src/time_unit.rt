ghost use Rattle.std.specs.Prelude.{◌≡◌, ◌≢◌, MatchOption};
ghost use Rattle.ams_token.specs.Spelling.{unit_text};

use crate::tables::find_text;

/// The units of time, in the order of their letters.
#[derive(Clone, Copy, Debug, PartialEq, Eq)]
pub enum TimeUnit {
    Fs,
    Hr,
    Min,
    Ms,
    Ns,
    Ps,
    Sec,
    Us,
}

/// The units of time with their texts, in lower case. A unit stands at its own number.
pub const TIME_UNITS: &[(TimeUnit, &str)] = &[
    (TimeUnit::Fs, "fs"),
    (TimeUnit::Hr, "hr"),
    (TimeUnit::Min, "min"),
    (TimeUnit::Ms, "ms"),
    (TimeUnit::Ns, "ns"),
    (TimeUnit::Ps, "ps"),
    (TimeUnit::Sec, "sec"),
    (TimeUnit::Us, "us"),
];

impl TimeUnit {
    /// The unit of time with this text, in lower case.
    pub fn find(text: &str) -> Option<TimeUnit>
        ensures { MatchOption result ((x : TimeUnit) → unit_text x ≢ text.now) (λ x. unit_text x ≡ text.now) }
    {
        find_text(TIME_UNITS, text)
    }

    pub fn text(self) -> &'static str
        ensures { result.now ≡ unit_text self }
    {
        TIME_UNITS[self as usize].1
    }
}
