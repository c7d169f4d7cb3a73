//! An equation that is prepared.
ghost use Rattle.std.specs.Prelude.{◌≡◌, slice_index_or, IfOk};
ghost use Rattle.flat_expr.specs.declared.expr.Unknown.TheVariants.{Quantity};
ghost use Rattle.fix_core.specs.Fixed.{difference_of};
ghost use Rattle.constant_slopes.specs.Constant.{with_two};
ghost use Rattle.prepared_pairs.specs.Prepared.{constant_in_row, constants_at, prepared};

use constant_slopes::constant_slope;
use eval_tape::Tape;
use fix_core::Fix;
use flat_design::Pair;
use flat_expr::Unknown;
use read_unknowns::{Places, asked_places};
use sqlite_items::Items;
use std::alloc::{AllocError, Global};
use std::marker::Model;

/// The places at which the row of an equation is asked for a slope, rising, and the constant slope at each of them, where
/// there is one; and the tapes of its sides.
#[derive(Drop)]
pub struct PreparedPair {
    places: Places,
    constants: Items<Option<Fix>>,
    left: Tape,
    right: Tape,
}

impl Model for PreparedPair {
    ghost use Rattle.prepared_pairs.specs.Prepared.{Content};

    ghost Value = { Content };

    ghost view = { λ pair. record { places = pair.places; constants = pair.constants; left = pair.left; right = pair.right } };
}

fn difference(left: Option<Fix>, right: Option<Fix>) -> Option<Fix>
    ensures { result ≡ with_two difference_of left right }
{
    match (left, right) {
        (Some(left), Some(right)) => left.sub(right).ok(),
        _ => None,
    }
}

/// The slope of the left side less that of the right one, where both are constant.
pub fn constant_in_row(pair: &Pair, unknown: Unknown) -> Option<Fix>
    ensures { result ≡ constant_in_row pair.now unknown }
{
    let left = constant_slope(&pair.left, unknown);
    let right = constant_slope(&pair.right, unknown);
    difference(left, right)
}

fn unknown_at(unknowns: &[Unknown], place: usize) -> Unknown
    ensures { result ≡ slice_index_or unknowns.now place (Quantity 0) }
{
    match unknowns.get(place) {
        Some(unknown) => *unknown,
        None => Unknown::Quantity(0),
    }
}

/// By the unknown at a place.
fn constant_at(pair: &Pair, unknowns: &[Unknown], place: usize) -> Option<Fix>
    ensures { result ≡ constant_in_row pair.now (slice_index_or unknowns.now place (Quantity 0)) }
{
    constant_in_row(pair, unknown_at(unknowns, place))
}

fn constants_at(
    alloc: Global,
    pair: &Pair,
    unknowns: &[Unknown],
    places: &[usize],
) -> Result<Items<Option<Fix>>, AllocError>
    ensures { IfOk result (λ constants. constants ≡ constants_at pair.now unknowns.now places.now) }
{
    let mut constants = Items::new(alloc);
    for place in places {
        constants.push(constant_at(pair, unknowns, *place))?;
    }
    Ok(constants)
}

impl PreparedPair {
    /// Prepares an equation, whose row has these unknowns.
    pub fn new(alloc: Global, pair: &Pair, unknowns: &[Unknown]) -> Result<PreparedPair, AllocError>
        ensures { IfOk result (λ own. own ≡ prepared pair.now unknowns.now) }
    {
        let places = asked_places(alloc, pair, unknowns)?;
        let constants = constants_at(alloc, pair, unknowns, places.as_slice())?;
        let left = Tape::compile(alloc, &pair.left, &[])?;
        let right = Tape::compile(alloc, &pair.right, &[])?;
        Ok(PreparedPair {
            places,
            constants,
            left,
            right,
        })
    }

    /// The places at which its row is asked for a slope.
    pub fn places(&self) -> &[usize]
        ensures { result.now ≡ self.now.places }
    {
        self.places.as_slice()
    }

    /// The tape of the left side, for its value.
    pub fn left(&self) -> &Tape
        ensures { result.now ≡ self.now.left }
    {
        &self.left
    }

    /// The tape of the right side, for its value.
    pub fn right(&self) -> &Tape
        ensures { result.now ≡ self.now.right }
    {
        &self.right
    }

    /// The constant slope at each of these places, where there is one.
    pub fn constants(&self) -> &[Option<Fix>]
        ensures { result.now ≡ self.now.constants }
    {
        self.constants.as_slice()
    }
}
