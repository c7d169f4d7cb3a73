//! Operands that look random.

ghost use Rattle.std.specs.Prelude.{◌≤◌, unsigned_abs};

use fix_core::Fix;

/// A linear congruential generator modulo 2^64.
#[derive(Drop)]
pub struct Numbers {
    state: u64,
}

impl Numbers {
    pub fn new() -> Numbers {
        Numbers { state: 1 }
    }

    fn next(&mut self) -> u64 {
        self.state = self
            .state
            .wrapping_mul(6_364_136_223_846_793_005)
            .wrapping_add(1_442_695_040_888_963_407);
        self.state
    }

    /// A number of magnitude at most 2^39 units.
    pub fn small(&mut self) -> Fix
        ensures { unsigned_abs result ≤ 549755813888 }
    {
        Fix::exactly(i128::from(self.next() >> 24) - 549_755_813_888)
    }

    /// A number of magnitude at most 2^77 units.
    pub fn large(&mut self) -> Fix {
        Fix::exactly(i128::from(self.next()) * 16_384 - 151_115_727_451_828_646_838_272)
    }

    /// A number of magnitude at most 2^43 units.
    pub fn exponent(&mut self) -> Fix {
        Fix::exactly(i128::from(self.next() >> 20) - 8_796_093_022_208)
    }
}
