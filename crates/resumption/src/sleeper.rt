//! What a process that waits reads, without a change of the world.
ghost use Rattle.resumption.specs.Waiting.{readings_of, context_of, local_of, reads_so};
ghost use Rattle.std.specs.Prelude.{◌≡◌, false, slice_index_or};

use ams_value::Val;
use expr_eval::Values;
use fix_core::{Fix, Tick};
use flat_expr::{SignalName, Unknown};
use kernel_world::World;
use statement_values::Activation;

/// A process by its number with its variables, in the world of a cycle.
#[derive(Clone, Copy)]
pub(crate) struct Sleeper<'w, 'a> {
    pub(crate) world: &'w World<'a>,
    pub(crate) process: u32,
    pub(crate) variables: &'w [Val],
}

/// The value of a variable, FALSE at a number that none has.
fn variable_at(variables: &[Val], number: u32) -> Val
    ensures { result ≡ slice_index_or variables.now number (Val.Bool false) }
{
    match variables.get(number as usize) {
        Some(value) => *value,
        None => Val::Bool(false),
    }
}

impl Values for Sleeper<'_, '_> {
    ghost readings = { readings_of };

    fn signal(&self, name: SignalName) -> Val {
        self.world.signal(name)
    }

    fn event(&self, name: SignalName) -> bool {
        self.world.event(name)
    }

    fn unknown(&self, unknown: Unknown) -> Fix {
        self.world.unknown(unknown)
    }

    fn variable(&self, number: u32) -> Val {
        variable_at(self.variables, number)
    }

    fn time(&self) -> Tick {
        self.world.time()
    }
}

impl Activation for Sleeper<'_, '_> {
    ghost context = { context_of };

    ghost local = { local_of };

    fn process(&self) -> u32 {
        self.process
    }

    ghost reads = { reads_so };
}
