//! An instance whose statements are walked.
ghost use Rattle.std.specs.Prelude.{◌≡◌, IfOk};
ghost use Rattle.unit_meaning.specs.Simultaneous.{selectors_of};
ghost use Rattle.walk_answers.specs.Answers.{body_with};

use ams_tree::Architecture;
use dot_names::selectors_of;
use flat_design::{Enumeration, Name};
use name_scope::Scope;
use sqlite_items::Items;
use std::alloc::{AllocError, Global};

/// An instance whose statements are walked: the scope of its statements, the enumeration types that they may name, the names
/// whose `'dot` stands in its equations, and its number.
#[derive(Drop)]
pub struct Body {
    pub scope: Scope,
    pub enumerations: Items<Enumeration>,
    pub selectors: Items<u32>,
    pub number: u32,
}

fn literals(alloc: Global, all: &[Name]) -> Result<Items<Name>, AllocError>
    ensures { IfOk result (λ copy. copy ≡ all.now) }
{
    let mut copy = Items::new(alloc);
    for literal in all {
        copy.push(Items::from_slice(alloc, literal.as_slice())?)?;
    }
    Ok(copy)
}

fn enumeration(alloc: Global, written: &Enumeration) -> Result<Enumeration, AllocError>
    ensures { IfOk result (λ copy. copy ≡ written.now) }
{
    Ok(Enumeration {
        literals: literals(alloc, written.literals.as_slice())?,
    })
}

fn enumerations(alloc: Global, all: &[Enumeration]) -> Result<Items<Enumeration>, AllocError>
    ensures { IfOk result (λ copy. copy ≡ all.now) }
{
    let mut copy = Items::new(alloc);
    for written in all {
        copy.push(enumeration(alloc, written)?)?;
    }
    Ok(copy)
}

/// The lists with which the statements of an architecture are read. The enumeration types are a copy, since the instances
/// inside declare more of them.
fn lists(
    alloc: Global,
    architecture: &Architecture,
    all: &[Enumeration],
) -> Result<(Items<Enumeration>, Items<u32>), AllocError>
    ensures { IfOk result (λ found. (found.0 ≡ all.now) × (found.1 ≡ selectors_of architecture.now.statements)) }
{
    let selectors = selectors_of(alloc, architecture.statements.as_slice())?;
    let enumerations = enumerations(alloc, all)?;
    Ok((enumerations, selectors))
}

/// The instance of an architecture with these names and enumeration types.
pub fn body_of(
    alloc: Global,
    architecture: &Architecture,
    scope: Scope,
    all: &[Enumeration],
    number: u32,
) -> Result<Body, AllocError>
    ensures { IfOk result (λ body. body ≡ body_with scope all.now (selectors_of architecture.now.statements) number) }
{
    match lists(alloc, architecture, all) {
        Ok((enumerations, selectors)) => Ok(Body {
            scope,
            enumerations,
            selectors,
            number,
        }),
        Err(error) => {
            drop(scope);
            Err(error)
        }
    }
}
