//! What is kept of a process that waits.
ghost use Rattle.std.specs.Prelude.{◌≡◌};
ghost use Rattle.resumption.specs.Sleeps.{Sleep};

use ams_value::Val;
use fix_core::Tick;

/// A process between two runs, of which the number of its wait, its timeout and its variables are kept.
pub trait Asleep {
    ghost asleep: { Self → Sleep };

    /// The number of its wait.
    fn wait(&self) -> u32
        ensures { result ≡ (asleep self.now).wait };

    fn timeout(&self) -> Option<Tick>
        ensures { result ≡ (asleep self.now).timeout };

    fn variables(&self) -> &[Val]
        ensures { result.now ≡ (asleep self.now).variables };
}
