//! What is kept of a process between two runs.
ghost use Rattle.std.specs.Prelude.{◌≡◌, None, IfOk, length, map};
ghost use Rattle.std.specs.List.{slice_get};
ghost use Rattle.cycle_meaning.specs.Processes.{parameters_at};
ghost use Rattle.process_laws.specs.Held.{begun_again};
ghost use Rattle.process_rest.specs.Resting.{at_first};

use ams_value::Val;
use fix_core::Tick;
use flat_design::{Process, Variable};
use process_control::Wait;
use process_rest::begin_again;
use process_stack::ProcessStack;
use std::alloc::{AllocError, Global};
use std::marker::Model;

/// The wait at which a process stands with the time of its timeout, its place behind the wait, and its variables.
#[derive(Drop)]
pub struct KeptProcess {
    wait: u32,
    timeout: Option<Tick>,
    pub(crate) stack: ProcessStack,
    pub(crate) variables: Vec<Val>,
}

impl Model for KeptProcess {
    ghost use Rattle.process_runs.specs.Kept.{Kept};

    ghost Value = { Kept };

    ghost view = { λ k. record { wait = k.wait; timeout = k.timeout; stack = k.stack; variables = k.variables.items } };
}

/// The initial values of variables.
fn initial_values(alloc: Global, variables: &[Variable]) -> Result<Vec<Val>, AllocError>
    ensures { IfOk result (λ values. values.items ≡ map (λ x. x.initial) variables.now) }
{
    let mut values = Vec::new(alloc);
    for variable in variables {
        values.push(variable.initial)?;
    }
    Ok(values)
}

impl KeptProcess {
    /// A process before its first run.
    pub fn new(alloc: Global, process: &Process) -> Result<KeptProcess, AllocError>
        ensures { IfOk result (λ kept. kept ≡ record { wait = 0; timeout = None; stack = at_first; variables = map (λ x. x.initial) process.now.variables }) }
    {
        let variables = initial_values(alloc, process.variables.as_slice())?;
        Ok(KeptProcess {
            wait: 0,
            timeout: None,
            stack: ProcessStack::new(alloc),
            variables,
        })
    }

    /// The number of the wait among those of the process.
    pub fn wait(&self) -> u32
        ensures { result ≡ self.now.wait }
    {
        self.wait
    }

    /// The time at which the process goes on without the condition of its wait.
    pub fn timeout(&self) -> Option<Tick>
        ensures { result ≡ self.now.timeout }
    {
        self.timeout
    }

    pub fn variables(&self) -> &[Val]
        ensures { result.now ≡ self.now.variables }
    {
        self.variables.as_slice()
    }

    /// Rests at a wait behind which the stack stands: the parameters of loops that aren't round it begin again.
    pub(crate) fn rest(&mut self, process: &Process, wait: Wait)
        requires { length self.old.variables ≡ length process.now.variables }
        ensures { self.new ≡ record { wait = wait.number; timeout = wait.timeout; stack = self.old.stack; variables = begun_again process.now.variables (parameters_at (slice_get process.now.waits wait.number)) 0 self.old.variables } }
    {
        self.wait = wait.number;
        self.timeout = wait.timeout;
        begin_again(process, wait.number, self.variables.as_mut_slice());
    }
}
