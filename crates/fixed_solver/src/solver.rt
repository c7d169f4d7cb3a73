//! The solver as whoever steps it sees it.
ghost use Rattle.std.specs.Prelude.{◌≡◌, IfOk};
ghost use Rattle.design_rules.specs.Design.{IsDesign};
ghost use Rattle.fixed_solver.specs.Counted.{count_of, count-bounded};
ghost use Rattle.fixed_solver.specs.Solves.{SolvesAs};

use crate::initial::write_initial;
use fix_core::Tick;
use flat_design::Flat;
use set_solver::SetSolver;
use std::alloc::{AllocError, Global};
use std::marker::{Model, PhantomData};
use step_data::{
    Attempt, BreakList, Choices, ChooseKind, Frame, Options, Point, SetKind, Settled, Tip, Trial,
};
use step_model::{Design, Stepper};
use step_parts::record_attempt;

/// The analogue side of a flat design with its options, which is part 0 of the named design: one solver has all equations.
/// Contracts see how many trials and attempts it has made.
#[derive(Drop)]
pub struct FixedSolver<'a, D: Design> {
    sets: SetSolver<'a>,
    options: Options,
    made: u64,
    design: PhantomData<D>,
}

impl<'a, D: Design> Model for FixedSolver<'a, D> {
    ghost use Rattle.std.specs.Prelude.{ℕ};

    ghost Value = { ℕ };

    ghost use Rattle.fixed_solver.specs.Solves.{SolvesAs};

    ghost view = { λ a. a.made };

    ghost invariant = { λ a. SolvesAs (D.system 0) a.sets a.options };
}

impl<'a, D: Design> FixedSolver<'a, D> {
    /// The solver of a design that has made nothing yet.
    pub fn new(
        alloc: Global,
        flat: &'a Flat,
        options: &Options,
    ) -> Result<FixedSolver<'a, D>, AllocError>
        requires design { IsDesign flat.now }
        requires system { SolvesAs (D.system 0) flat.now options.now }
        ensures { IfOk result (λ solver. solver ≡ 0) }
    {
        let sets = SetSolver::new(alloc, flat)?;
        Ok(FixedSolver {
            sets,
            options: *options,
            made: 0,
            design: PhantomData,
        })
    }
}

impl<'a, D: Design> Stepper<D> for FixedSolver<'a, D> {
    ghost part = { λ solver. 0 };

    ghost count = { count_of };

    fn unknowns(&self) -> usize {
        self.sets.flat().unknown_count()
    }

    fn frame_len(&self) -> usize {
        self.sets.flat().frame().len()
    }

    fn choices(&self) -> usize {
        self.sets.choices()
    }

    fn initial(&self, out: &mut Point) {
        write_initial(self.sets.flat(), out);
    }

    fn trial(&mut self, frame: &Frame, tip: &Tip, s: u64, out: &mut Point) -> Trial {
        self.made = self.made.saturating_add(1);
        self.sets.trial(&self.options, frame, tip, s, out)
    }

    fn attempt(&mut self, frame: &Frame, tip: &Tip, out: &mut Attempt) {
        self.made = self.made.saturating_add(1);
        let trial = self
            .sets
            .trial(&self.options, frame, tip, tip.h, &mut out.x);
        record_attempt(&self.options, tip, trial, out);
    }

    fn settle(
        &mut self,
        frame: &Frame,
        t: Tick,
        set: SetKind,
        breaks: &BreakList,
        x: &mut Point,
    ) -> Settled {
        self.sets.settle(&self.options, frame, t, set, breaks, x)
    }

    fn choose(
        &mut self,
        frame: &Frame,
        t: Tick,
        kind: ChooseKind,
        x: &Point,
        out: &mut Choices,
    ) -> Settled {
        self.sets.choose(frame, t, kind, x, out)
    }

    ghost bounded = { count-bounded };
}
