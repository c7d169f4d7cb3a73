//! The parameters of loops.
ghost use Rattle.std.specs.Prelude.{◌≡◌, ◌&&◌, not, nat_eq, length, slice_get};
ghost use Rattle.std.specs.List.{list_any};
ghost use Rattle.cycle_meaning.specs.Processes.{parameters_at};
ghost use Rattle.process_laws.specs.Held.{begun_again};

use ams_value::Val;
use flat_design::{Process, Variable};

/// The parameters of the loops round a wait.
fn parameters_round(process: &Process, wait: u32) -> &[u32]
    ensures { result.now ≡ parameters_at (slice_get process.now.waits wait) }
{
    match process.waits.as_slice().get(wait as usize) {
        Some(place) => place.parameters.as_slice(),
        None => &[],
    }
}

fn is_among(number: usize, round: &[u32]) -> bool
    ensures { result ≡ list_any (nat_eq number) round.now }
{
    round.iter().any(|parameter| number == *parameter as usize)
}

/// Whether a variable is the parameter of a loop that is none of these.
fn begins_again(variable: &Variable, number: usize, round: &[u32]) -> bool
    ensures { result ≡ (variable.now.is_parameter && not (list_any (nat_eq number) round.now)) }
{
    variable.is_parameter && !is_among(number, round)
}

/// Where a process waits, the parameters of loops that aren't round the wait get their initial values again; no expression names
/// them until their loop begins.
pub fn begin_again(process: &Process, wait: u32, variables: &mut [Val])
    requires { length variables.old ≡ length process.now.variables }
    ensures { variables.new ≡ begun_again process.now.variables (parameters_at (slice_get process.now.waits wait)) 0 variables.old }
{
    let round = parameters_round(process, wait);
    for (number, variable) in process.variables.as_slice().iter().enumerate() {
        if begins_again(variable, number, round) {
            variables[number] = variable.initial;
        }
    }
}
