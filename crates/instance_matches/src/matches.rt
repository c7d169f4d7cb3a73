//! Associations by the places of their formals (IEEE 1076, 6.5.7.1).
ghost use Rattle.std.specs.Prelude.{◌≡◌, [], nat_eq, IfOk, IfSome};
ghost use Rattle.std.specs.List.{list_any};
ghost use Rattle.unit_meaning.specs.Walk as spec;
ghost use Rattle.instance_matches.specs.Places as own;
ghost use Rattle.instance_matches.specs.Sound.{AreSound, IsSoundAssigned, IsSoundGiven};

use number_list::NumberList;
use std::alloc::{AllocError, Global};
use std::marker::Model;
use unit_meaning::{Actual, Assigned};

/// Associations with the places of their formals in the interface. Contracts see each beside its place.
#[derive(Drop)]
pub struct Matches<'a> {
    places: NumberList,
    all: &'a [Assigned],
}

impl<'a> Model for Matches<'a> {
    ghost use Rattle.std.specs.Prelude.{List, ℕ};
    ghost use Rattle.std.specs.List.{zip};
    ghost use Rattle.unit_meaning.specs.declared.request.Assigned.{Assigned};

    ghost Value = { List (ℕ × Assigned) };

    ghost view = { λ m. zip m.places m.all.now };
}

/// The actual, where it isn't `open`.
fn closed(assigned: &Assigned) -> Option<Assigned>
    ensures { result ≡ own.closed assigned.now }
{
    match assigned.actual {
        Actual::Open => None,
        Actual::Object(_, _) | Actual::Value(_, _) => Some(*assigned),
    }
}

fn closed_at(all: &[Assigned], place: usize) -> Option<Assigned>
    ensures { result ≡ own.closed_at all.now place }
{
    match all.get(place) {
        Some(assigned) => closed(assigned),
        None => None,
    }
}

impl<'a> Matches<'a> {
    #[tactic(auto, using(crate::proofs::Placed::found_in))]
    fn find(&self, formal: u32) -> Option<Assigned>
        ensures { result ≡ spec.actual_at self.now formal }
    {
        match self.places.find(formal) {
            Some(place) => closed_at(self.all, place),
            None => None,
        }
    }

    /// The association of the formal at this place; none where it is left out or open.
    pub fn actual_at(&self, formal: u32) -> Option<Assigned>
        ensures value { result ≡ spec.actual_at self.now formal }
        ensures sound { IsSoundGiven self.now → IfSome result IsSoundAssigned }
    {
        self.find(formal)
    }
}

/// The place of an association's formal in the interface.
fn formal_place(formals: &NumberList, place: usize, formal: Option<u32>) -> Option<usize>
    ensures { result ≡ spec.formal_place formals.now place formal }
{
    match formal {
        Some(name) => formals.find(name),
        None => {
            if place < formals.len() {
                Some(place)
            } else {
                None
            }
        }
    }
}

#[tactic(auto, using(crate::proofs::Placed::taken_is))]
fn is_taken(places: &NumberList, formal: u32) -> bool
    ensures { result ≡ list_any (nat_eq formal) places.now }
{
    places.find(formal).is_some()
}

/// The place where no other association of the list is for that formal.
fn free_place(
    formals: &NumberList,
    places: &NumberList,
    place: usize,
    formal: Option<u32>,
) -> Result<Option<u32>, AllocError>
    ensures { IfOk result (λ free. free ≡ own.free_place formals.now places.now place formal) }
{
    let Some(found) = formal_place(formals, place, formal) else {
        return Ok(None);
    };
    let Ok(number) = u32::try_from(found) else {
        return Err(AllocError);
    };
    if is_taken(places, number) {
        Ok(None)
    } else {
        Ok(Some(number))
    }
}

/// The places of the formals of associations; none where one is for no formal, or a second one for a formal.
fn places_of(
    alloc: Global,
    formals: &NumberList,
    all: &[Assigned],
) -> Result<Option<NumberList>, AllocError>
    ensures { IfOk result (λ found. found ≡ own.placed formals.now 0 all.now []) }
{
    let mut places = NumberList::new(alloc);
    for (place, assigned) in all.iter().enumerate() {
        match free_place(formals, &places, place, assigned.formal)? {
            Some(number) => places = places.with(number)?,
            None => return Ok(None),
        }
    }
    Ok(Some(places))
}

/// Associations by the places of their formals in the interface, whose names these are. A formal goes by its name, or by
/// the place of its association in the list. None where one is for no formal, or a second one for a formal.
#[tactic(auto, using(crate::proofs::Placed::matched_is))]
pub fn matched<'a>(
    alloc: Global,
    formals: &NumberList,
    all: &'a [Assigned],
) -> Result<Option<Matches<'a>>, AllocError>
    ensures value { IfOk result (λ found. found ≡ spec.matched formals.now all.now) }
    ensures sound { AreSound all.now → IfOk result (λ found. IfSome found IsSoundGiven) }
{
    match places_of(alloc, formals, all)? {
        Some(places) => Ok(Some(Matches { places, all })),
        None => Ok(None),
    }
}
