//! The solvability count of a flat design.
#![tactic(auto)]

ghost use Rattle.std.specs.Prelude.{◌≡◌, Some, None, OnOk, IfErr};
ghost use Rattle.unit_meaning.specs.Drivers.{unsolvable, unsolvable_in, numbers_at};

use flat_design::{Flat, Instance};

/// An instance whose numbers of equations and of unknowns differ.
#[derive(Clone, Copy, Debug, PartialEq, Eq)]
pub struct Unsolvable {
    pub instance: usize,
    pub equations: u32,
    pub unknowns: u32,
}

fn first_unequal(instances: &[Instance]) -> Option<usize>
    ensures { result ≡ unsolvable_in instances.now }
{
    instances
        .iter()
        .position(|instance| instance.equations != instance.unknowns)
}

/// Asks of each instance that it has as many equations as unknowns. The error is the first one that hasn't.
pub fn count(flat: &Flat) -> Result<(), Unsolvable>
    ensures ok { OnOk result (unsolvable flat.now ≡ None) }
    ensures instance { IfErr result (λ u. unsolvable flat.now ≡ Some u.instance) }
    ensures numbers { IfErr result (λ u. numbers_at flat.now u.instance ≡ Some (u.equations, u.unknowns)) }
{
    let instances = flat.instances();
    match first_unequal(instances) {
        Some(instance) => Err(Unsolvable {
            instance,
            equations: instances[instance].equations,
            unknowns: instances[instance].unknowns,
        }),
        None => Ok(()),
    }
}
