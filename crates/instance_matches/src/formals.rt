//! The names of an entity's generics and ports.
ghost use Rattle.std.specs.Prelude.{◌≡◌, ◌++◌, IfOk};
ghost use Rattle.unit_meaning.specs.Walk as spec;

use ams_tree::{Generic, Name, Port};
use number_list::NumberList;
use std::alloc::{AllocError, Global};

#[tactic(auto, using(std::proofs::lemmas::List::append_assoc))]
fn with_numbers(list: NumberList, names: &[Name]) -> Result<NumberList, AllocError>
    ensures { IfOk result (λ all. all ≡ list ++ spec.numbers names.now) }
{
    let mut all = list;
    for name in names {
        all = all.with(name.number)?;
    }
    Ok(all)
}

/// The names of generics, by their numbers.
#[tactic(auto, using(std::proofs::lemmas::List::append_assoc))]
pub fn generic_numbers(alloc: Global, generics: &[Generic]) -> Result<NumberList, AllocError>
    ensures { IfOk result (λ all. all ≡ spec.generic_numbers generics.now) }
{
    let mut all = NumberList::new(alloc);
    for generic in generics {
        all = with_numbers(all, generic.names.as_slice())?;
    }
    Ok(all)
}

/// The names of a declaration of ports.
pub fn port_names(port: &Port) -> &[Name]
    ensures { result.now ≡ spec.port_names port.now }
{
    match port {
        Port::Signal(_, names, _, _, _)
        | Port::Terminal(_, names, _)
        | Port::Quantity(_, names, _, _) => names.as_slice(),
    }
}

/// The names of ports, by their numbers.
#[tactic(auto, using(std::proofs::lemmas::List::append_assoc))]
pub fn port_numbers(alloc: Global, ports: &[Port]) -> Result<NumberList, AllocError>
    ensures { IfOk result (λ all. all ≡ spec.port_numbers ports.now) }
{
    let mut all = NumberList::new(alloc);
    for port in ports {
        all = with_numbers(all, port_names(port))?;
    }
    Ok(all)
}
