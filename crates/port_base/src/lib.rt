//! What is told of sources and sinks of bytes: how often they failed, what is left, what is held.
#![tactic(auto)]

ghost use Rattle.std.specs.Prelude.{◌≡◌, ◌+◌, ◌≤◌, min};
ghost use Rattle.port_base.specs.Faults.{Rose};
ghost use Rattle.port_base.specs.Told.{FrontsJoin, PiecesJoin};
ghost use Rattle.port_base.specs.Lines.{LinesJoin};

use std::marker::Model;

/// How often a source or a sink has failed. The count stands still at the greatest `u64`.
#[derive(Clone, Copy, Debug, PartialEq, Eq)]
pub struct FaultCount {
    count: u64,
}

impl Model for FaultCount {
    ghost use Rattle.std.specs.Prelude.{ℕ};

    ghost Value = { ℕ };

    ghost view = { λ f. f.count };

    ghost inverse = { λ n. record { count = n } };
}

impl FaultCount {
    /// No fault so far.
    pub const fn new() -> FaultCount
        ensures { result ≡ 0 }
    {
        FaultCount { count: 0 }
    }

    pub fn get(self) -> u64
        ensures { result ≡ self }
    {
        self.count
    }

    /// Counts one more fault.
    pub fn rise(&mut self)
        ensures value { self.new ≡ min (self.old + 1) 18446744073709551615 }
        ensures later { self.old ≤ self.new }
        ensures rose { Rose self.old self.new }
    {
        self.count = self.count.saturating_add(1);
    }
}

/// Bytes read one after another, and bytes written one after another. It is proved, and does nothing when it runs.
#[tactic(auto, using(crate::specs::Told::told_rules, crate::specs::Lines::line_rules))]
pub fn pieces_join()
    ensures fronts { FrontsJoin }
    ensures pieces { PiecesJoin }
    ensures lines { LinesJoin }
{}
