//! A design whose equation sets are prepared.
ghost use Rattle.std.specs.Prelude.{◌≡◌, IsTrue, length, IfOk, OnOk};
ghost use Rattle.std.specs.List.{All};
ghost use Rattle.fix_core.specs.Passes.{each, answer};
ghost use Rattle.flat_design.specs.Order.{unknowns, unknown_count};
ghost use Rattle.design_meaning.specs.Equations.{rows_of};
ghost use Rattle.design_meaning.specs.Newton.{linear_row, residuals_of};
ghost use Rattle.design_meaning.specs.Reading.{readings_of};
ghost use Rattle.design_meaning.specs.Steps.{choose, selections_of};
ghost use Rattle.design_rules.specs.Design.{IsDesign};
ghost use Rattle.design_rules.specs.Rows.{AreBranches};
ghost use Rattle.system_model.specs.System.{is_element};
ghost use Rattle.equation_values.specs.Evaluable.{IsFrame, CanEvaluateEquation};
ghost use Rattle.equation_values.specs.Reading.{readings_in};
ghost use Rattle.augmentation_rows.specs.Sets.{set_by, HasStep};

use ams_point::Point;
use augmentation_rows::{Augmentation, fill_augmentations, write_residuals as write_augmentations};
use branch_choices::choose_branches;
use common_rows::CommonRows;
use design_meaning::EvalFault;
use equation_rows::{fill_equations, write_residuals as write_equations};
use equation_values::{EquationReader, EquationValues, equations_can_be_evaluated};
use fix_core::{Fix, Tick};
use flat_design::Flat;
use flat_expr::Unknown;
use newton_rounds::of_evaluation;
use prepared_pairs::{PreparedPair, prepare_branches};
use sparse_rows::SparseRows;
use sqlite_items::Items;
use std::alloc::{AllocError, Global};
use std::marker::Model;
use step_data::{Cause, ChooseKind, Element, Frame};

/// A design with what its equation sets need: the explicit equations, prepared for their rows, and the rows of the structural
/// set. Contracts see the design's lists.
#[derive(Drop)]
pub struct EquationSystem<'a> {
    reader: EquationReader<'a>,
    pairs: Items<Items<Items<PreparedPair>>>,
    common: CommonRows<'a>,
}

impl<'a> Model for EquationSystem<'a> {
    ghost use Rattle.flat_design.specs.declared.objects.Objects.{Objects};
    ghost use Rattle.flat_design.specs.contracts.objects.Objects as lists;

    ghost Value = { Objects };

    ghost coded = { lists.the_row.coded };

    ghost use Rattle.equation_system.specs.Prepared.{IsPrepared};

    ghost view = { λ a. a.reader };

    ghost invariant = { λ a. IsPrepared a.reader a.pairs a.common };
}

impl<'a> EquationSystem<'a> {
    /// Prepares the equation sets of a design.
    pub fn new(alloc: Global, flat: &'a Flat) -> Result<EquationSystem<'a>, AllocError>
        requires { IsDesign flat.now }
        ensures { IfOk result (λ system. system ≡ flat.now) }
    {
        let reader = EquationReader::new(alloc, flat)?;
        let common = CommonRows::new(alloc, flat)?;
        let pairs = prepare_branches(alloc, flat.equations(), common.unknowns())?;
        Ok(EquationSystem {
            reader,
            pairs,
            common,
        })
    }

    /// The design.
    pub fn flat(&self) -> &'a Flat
        ensures design { result.now ≡ self.now }
        ensures rules { IsDesign self.now }
    {
        self.reader.flat()
    }

    /// The unknowns in their order.
    pub fn unknowns(&self) -> &[Unknown]
        ensures { result.now ≡ unknowns self.now }
    {
        self.common.unknowns()
    }

    /// What equations read under a frame, for a value of DOMAIN, at a time and a point.
    pub fn values<'s>(
        &'s self,
        frame: &'s Frame,
        kind: ChooseKind,
        time: Tick,
        point: &'s Point,
    ) -> EquationValues<'s>
        requires frame { IsFrame self.now frame.now }
        requires point { length point.now ≡ unknown_count self.now }
        ensures readings { readings_in result ≡ readings_of self.now frame.now kind time point.now }
        ensures evaluable { All (CanEvaluateEquation (readings_in result)) self.now.equations }
    {
        let _ticks = time.get();
        equations_can_be_evaluated();
        self.reader.values(frame, kind, time, point)
    }

    /// Writes the rows of the linear system that a set gives, with its break elements and branches, or answers the first
    /// fault.
    pub fn fill(
        &self,
        set: &Augmentation<'_>,
        elements: &[Element],
        branches: &[u32],
        values: &EquationValues<'_>,
        rows: &mut SparseRows,
    ) -> Result<(), EvalFault>
        requires evaluable { All (CanEvaluateEquation (readings_in values.now)) self.now.equations }
        requires branches { AreBranches self.now.equations branches.now }
        requires elements { All (λ e. IsTrue (is_element self.now e)) elements.now }
        requires step { HasStep set.now }
        requires size { length rows.old ≡ unknown_count self.now }
        ensures answer { each (linear_row (unknowns self.now) (readings_in values.now)) (rows_of self.now branches.now (set_by set.now) elements.now) ≡ answer result rows.new }
        ensures count { length rows.new ≡ length rows.old }
    {
        let flat = self.flat();
        let dots = flat.unknown_count() - flat.dots().len();
        let common = dots - self.common.len();
        let pairs = self.pairs.as_slice();
        let unknowns = self.common.unknowns();
        fill_equations(flat.equations(), pairs, branches, unknowns, values, rows, 0)?;
        self.common.fill(values, rows, common)?;
        fill_augmentations(set, elements, flat, values, rows, dots)
    }

    /// Writes the residuals of a set, with its break elements and branches, or answers the first fault.
    pub fn write_residuals(
        &self,
        set: &Augmentation<'_>,
        elements: &[Element],
        branches: &[u32],
        values: &EquationValues<'_>,
        out: &mut [Fix],
    ) -> Result<(), EvalFault>
        requires evaluable { All (CanEvaluateEquation (readings_in values.now)) self.now.equations }
        requires branches { AreBranches self.now.equations branches.now }
        requires step { HasStep set.now }
        requires room { length out.old ≡ unknown_count self.now }
        ensures answer { residuals_of (rows_of self.now branches.now (set_by set.now) elements.now) (readings_in values.now) ≡ answer result out.new }
        ensures count { length out.new ≡ length out.old }
    {
        let flat = self.flat();
        let dots = flat.unknown_count() - flat.dots().len();
        let common = dots - self.common.len();
        let pairs = self.pairs.as_slice();
        let unknowns = self.common.unknowns();
        write_equations(flat.equations(), pairs, branches, unknowns, values, out, 0)?;
        self.common.write_residuals(values, out, common)?;
        write_augmentations(set, elements, flat, values, out, dots)
    }

    /// Writes the branch of each choice in walk order, or answers the cause of the first fault.
    pub fn choose(
        &self,
        frame: &Frame,
        time: Tick,
        kind: ChooseKind,
        point: &Point,
        out: &mut [u32],
    ) -> Result<(), Cause>
        requires frame { IsFrame self.now frame.now }
        requires point { length point.now ≡ unknown_count self.now }
        requires room { length out.old ≡ length (selections_of self.now.equations) }
        ensures answer { choose self.now frame.now time kind point.now ≡ answer result out.new }
        ensures branches { OnOk result (AreBranches self.now.equations out.new) }
        ensures count { length out.new ≡ length out.old }
    {
        let flat = self.flat();
        let values = self.values(frame, kind, time, point);
        of_evaluation(choose_branches(flat.equations(), &values, out, 0))
    }
}
