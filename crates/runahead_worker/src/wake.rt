ghost use Rattle.std.specs.Prelude.{◌≡◌};

use std::sync::Condvar;

/// The duty to wake the worker where it waits. It can't be let go: `ring` alone uses it up.
pub struct Wake {
    waits: bool,
}

impl Wake {
    pub fn new(waits: bool) -> Wake
        ensures { result.waits ≡ waits }
    {
        Wake { waits }
    }

    /// Wakes the worker where it waits, and nobody else.
    pub fn ring(self, bell: &Condvar) {
        let Wake { waits } = self;
        if waits {
            bell.notify_one();
        }
    }
}
