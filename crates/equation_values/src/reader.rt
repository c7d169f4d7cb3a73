//! What equations read, found in the frame of a design.
ghost use Rattle.std.specs.Prelude.{◌≡◌, length, map, position, IfOk};
ghost use Rattle.std.specs.List.{range_with_len};
ghost use Rattle.flat_expr.specs.declared.expr.SignalName.TheVariants.{Signal, Threshold};
ghost use Rattle.flat_expr.specs.Expr.{same_signal};
ghost use Rattle.flat_design.specs.Order.{unknown_count};
ghost use Rattle.design_meaning.specs.Reading.{readings_of};
ghost use Rattle.design_rules.specs.Design.{IsDesign};
ghost use Rattle.equation_values.specs.Reading.{readings_in, place_in};

use crate::values::EquationValues;
use fix_core::Tick;
use flat_design::Flat;
use flat_expr::SignalName;
use std::alloc::{AllocError, Global};
use std::marker::Model;
use step_data::{ChooseKind, Frame, Point};

/// A design with the places that its signals and thresholds have in its frame. Contracts see the design's lists.
#[derive(Drop)]
pub struct EquationReader<'a> {
    flat: &'a Flat,
    signals: Vec<usize>,
    thresholds: Vec<usize>,
}

impl<'a> Model for EquationReader<'a> {
    ghost use Rattle.flat_design.specs.declared.objects.Objects.{Objects};
    ghost use Rattle.flat_design.specs.contracts.objects.Objects as lists;
    ghost use Rattle.equation_values.specs.Reading.{HasPlaces};

    ghost Value = { Objects };

    ghost coded = { lists.the_row.coded };

    ghost view = { λ a. a.flat.now };

    ghost invariant = { λ a. HasPlaces a.flat.now a.signals.items a.thresholds.items };
}

fn position_of(frame: &[SignalName], name: SignalName) -> Option<usize>
    ensures { result ≡ position (λ other. same_signal other name) frame.now }
{
    frame.iter().position(|other| *other == name)
}

/// The place of a signal in the frame, which has the frame's length where it isn't read.
fn place_of(frame: &[SignalName], name: SignalName) -> usize
    ensures { result ≡ place_in frame.now name }
{
    match position_of(frame, name) {
        Some(place) => place,
        None => frame.len(),
    }
}

fn signal_places(alloc: Global, frame: &[SignalName], count: u32) -> Result<Vec<usize>, AllocError>
    ensures { IfOk result (λ places. places.items ≡ map (λ i. place_in frame.now (Signal i)) (range_with_len 0 count)) }
{
    (0..count)
        .map(|i| place_of(frame, SignalName::Signal(i)))
        .collect(alloc)
}

fn threshold_places(
    alloc: Global,
    frame: &[SignalName],
    count: u32,
) -> Result<Vec<usize>, AllocError>
    ensures { IfOk result (λ places. places.items ≡ map (λ k. place_in frame.now (Threshold k)) (range_with_len 0 count)) }
{
    (0..count)
        .map(|k| place_of(frame, SignalName::Threshold(k)))
        .collect(alloc)
}

impl<'a> EquationReader<'a> {
    pub fn new(alloc: Global, flat: &'a Flat) -> Result<EquationReader<'a>, AllocError>
        requires { IsDesign flat.now }
        ensures { IfOk result (λ reader. reader ≡ flat.now) }
    {
        let frame = flat.frame();
        let signals = signal_places(alloc, frame, flat.signals().len() as u32)?;
        let thresholds = threshold_places(alloc, frame, flat.thresholds().len() as u32)?;
        Ok(EquationReader {
            flat,
            signals,
            thresholds,
        })
    }

    /// The design.
    pub fn flat(&self) -> &'a Flat
        ensures { result.now ≡ self.now }
    {
        self.flat
    }

    /// What equations read under a frame, for a value of DOMAIN, at a time and a point.
    pub fn values<'s>(
        &'s self,
        frame: &'s Frame,
        kind: ChooseKind,
        time: Tick,
        point: &'s Point,
    ) -> EquationValues<'s>
        requires { length point.now ≡ unknown_count self.now }
        ensures { readings_in result ≡ readings_of self.now frame.now kind time point.now }
    {
        let (quantities, others) = point.as_slice().split_at(self.flat.quantities().len());
        let (references, dots) = others.split_at(self.flat.nodes().len());
        EquationValues {
            signals: self.signals.as_slice(),
            thresholds: self.thresholds.as_slice(),
            frame: frame.as_slice(),
            kind,
            time,
            quantities,
            references,
            dots,
        }
    }
}
