//! The places of a row that have to be asked for a slope.
ghost use Rattle.std.specs.Prelude.{◌≡◌, ◌++◌, ◌∷◌, [], if◌then◌else◌, ◌||◌, not, IfOk, OnOk};
ghost use Rattle.read_unknowns.specs.Asked.{asked_places};

use crate::stands::stands_on;
use flat_design::Pair;
use flat_expr::Unknown;
use sqlite_items::Items;
use std::alloc::{AllocError, Global};

/// Places of unknowns in their order, rising.
pub type Places = Items<usize>;

/// Adds a place where it is wanted.
fn add(places: &mut Vec<usize>, wanted: bool, place: usize) -> Result<(), AllocError>
    ensures { OnOk result (places.new.items ≡ places.old.items ++ (if wanted then place ∷ [] else [])) }
{
    if wanted {
        places.push(place)?;
    }
    Ok(())
}

/// A place is asked where its unknown stands in the equation, and where none is found that doesn't.
fn is_asked(stands: bool, found: bool) -> bool
    ensures { result ≡ (stands || not found) }
{
    stands || !found
}

/// An unknown that doesn't stand in the equation was found before, or is found here.
fn is_found(stands: bool, found: bool) -> bool
    ensures { result ≡ (found || not stands) }
{
    found || !stands
}

/// The places that are asked for a slope: those of the unknowns that stand in the equation, and the first one of an
/// unknown that doesn't. Where that has a slope, all the others that don't have the slope 0.

pub fn asked_places(alloc: Global, pair: &Pair, unknowns: &[Unknown]) -> Result<Places, AllocError>
    ensures { IfOk result (λ places. places ≡ asked_places pair.now unknowns.now) }
{
    let mut places = Vec::new(alloc);
    let mut found = false;
    for i in 0..unknowns.len() {
        let stands = stands_on(pair, unknowns[i]);
        add(&mut places, is_asked(stands, found), i)?;
        found = is_found(stands, found);
    }
    Ok(Items::from_vec(places))
}
