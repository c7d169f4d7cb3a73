//! The solver of a design's sets.
ghost use Rattle.std.specs.Prelude.{◌≡◌, ◌≤◌, IsTrue, length, IfOk, OnErr};
ghost use Rattle.std.specs.List.{All};
ghost use Rattle.fix_core.specs.Passes.{answer};
ghost use Rattle.flat_design.specs.Order.{unknown_count};
ghost use Rattle.design_meaning.specs.Steps.{choose, trial, settle, selections_of};
ghost use Rattle.design_rules.specs.Design.{IsDesign};
ghost use Rattle.system_model.specs.System.{is_element};
ghost use Rattle.equation_values.specs.Evaluable.{IsFrame};
ghost use Rattle.step_model.specs.Answers.{trial_answer, trial_point, settled_answer, settled_value};
ghost use Rattle.set_solver.specs.Stepped.{stepped};

use crate::choices::{choice_count, copy_branches};
use crate::sets::{Basis, error_between, kind_of, solve_at, solve_step};
use ams_point::Point;
use equation_system::EquationSystem;
use fix_core::Tick;
use flat_design::Flat;
use newton_rounds::Newton;
use std::alloc::{AllocError, Global};
use std::marker::Model;
use step_data::{
    BreakList, Cause, Choices, ChooseKind, Frame, Options, SetKind, Settled, Tip, Trial,
};
use step_parts::judge_error;

/// The equation sets of a design with Newton's method and the room that solutions take. Contracts see the design's lists.
#[derive(Drop)]
pub struct SetSolver<'a> {
    system: EquationSystem<'a>,
    newton: Newton,
    branches: Vec<u32>,
    /// The values just before a solution.
    before: Point,
}

impl<'a> Model for SetSolver<'a> {
    ghost use Rattle.flat_design.specs.declared.objects.Objects.{Objects};
    ghost use Rattle.flat_design.specs.contracts.objects.Objects as lists;

    ghost Value = { Objects };

    ghost coded = { lists.the_row.coded };

    ghost use Rattle.set_solver.specs.Room.{HasRoom};

    ghost view = { λ a. a.system };

    ghost invariant = { λ a. HasRoom a.system a.newton a.branches.items a.before };
}

/// The answer of a solution at one time.
fn settled(solved: Result<(), Cause>) -> Settled
    ensures { result ≡ settled_answer solved }
{
    match solved {
        Ok(()) => Settled::Good,
        Err(cause) => Settled::Refused(cause),
    }
}

impl<'a> SetSolver<'a> {
    /// The solver of a design.
    pub fn new(alloc: Global, flat: &'a Flat) -> Result<SetSolver<'a>, AllocError>
        requires { IsDesign flat.now }
        ensures { IfOk result (λ solver. solver ≡ flat.now) }
    {
        let system = EquationSystem::new(alloc, flat)?;
        let newton = Newton::new(alloc, flat.unknown_count())?;
        let branches = vec![in alloc; 0u32; choice_count(flat.equations())]?;
        let before = Point::new(alloc, flat.unknown_count())?;
        Ok(SetSolver {
            system,
            newton,
            branches,
            before,
        })
    }

    /// The design.
    pub fn flat(&self) -> &'a Flat
        ensures { result.now ≡ self.now }
    {
        self.system.flat()
    }

    /// How many choices the design has.
    pub fn choices(&self) -> usize
        ensures { result ≡ length (selections_of self.now.equations) }
    {
        self.branches.len()
    }

    /// A step from the tip: the values at its end, and its error.
    fn step(
        &mut self,
        options: &Options,
        frame: &Frame,
        tip: &Tip,
        s: u64,
        out: &mut Point,
    ) -> Result<u128, Cause>
        requires frame { IsFrame self.old frame.now }
        requires point { length tip.now.x ≡ unknown_count self.old }
        requires time { tip.now.t ≤ 1000000000000000 }
        requires step { s ≤ 1000000000000 }
        requires room { length out.old ≡ unknown_count self.old }
        ensures answer { trial self.old options.now frame.now tip.now s ≡ stepped result out.new }
        ensures length { length out.new ≡ unknown_count self.old }
        ensures design { self.new ≡ self.old }
    {
        let branches = self.branches.as_mut_slice();
        self.system
            .choose(frame, tip.t, ChooseKind::Timed, &tip.x, branches)?;
        let basis = Basis {
            system: &self.system,
            options,
            frame,
            branches: self.branches.as_slice(),
        };
        solve_step(&basis, &mut self.newton, tip, s, out)?;
        let err = error_between(self.system.flat(), s, &tip.x, out);
        judge_error(options.ltol, err)?;
        Ok(err)
    }

    /// A step of `s` ticks from the tip. Where it is refused, `out` is the tip's point.
    pub fn trial(
        &mut self,
        options: &Options,
        frame: &Frame,
        tip: &Tip,
        s: u64,
        out: &mut Point,
    ) -> Trial
        requires frame { IsFrame self.old frame.now }
        requires point { length tip.now.x ≡ unknown_count self.old }
        requires time { tip.now.t ≤ 1000000000000000 }
        requires step { s ≤ 1000000000000 }
        requires room { length out.old ≡ unknown_count self.old }
        ensures answer { result ≡ trial_answer (trial self.old options.now frame.now tip.now s) }
        ensures point { out.new ≡ trial_point tip.now.x (trial self.old options.now frame.now tip.now s) }
        ensures length { length out.new ≡ unknown_count self.old }
        ensures design { self.new ≡ self.old }
    {
        match self.step(options, frame, tip, s, out) {
            Ok(err) => Trial::Good { err },
            Err(cause) => {
                out.copy_from(&tip.x);
                Trial::Refused(cause)
            }
        }
    }

    /// The solution at one time from the values that were kept as those just before, which `x` has too.
    fn find_solution(
        &mut self,
        options: &Options,
        frame: &Frame,
        t: Tick,
        set: SetKind,
        breaks: &BreakList,
        x: &mut Point,
    ) -> Result<(), Cause>
        requires frame { IsFrame self.old frame.now }
        requires elements { All (λ e. IsTrue (is_element self.old e)) breaks.now }
        requires point { length x.old ≡ unknown_count self.old }
        ensures answer { settle self.old options.now frame.now t set breaks.now x.old ≡ answer result x.new }
        ensures kept { OnErr result (x.new ≡ x.old) }
        ensures length { length x.new ≡ unknown_count self.old }
        ensures design { self.new ≡ self.old }
    {
        self.before.copy_from(x);
        let branches = self.branches.as_mut_slice();
        self.system
            .choose(frame, t, kind_of(set), &self.before, branches)?;
        let basis = Basis {
            system: &self.system,
            options,
            frame,
            branches: self.branches.as_slice(),
        };
        let elements = breaks.as_slice();
        solve_at(&basis, &mut self.newton, t, set, elements, &self.before, x)
    }

    /// The solution at one time, from the values in `x`. Where it is refused, `x` stays.
    pub fn settle(
        &mut self,
        options: &Options,
        frame: &Frame,
        t: Tick,
        set: SetKind,
        breaks: &BreakList,
        x: &mut Point,
    ) -> Settled
        requires frame { IsFrame self.old frame.now }
        requires elements { All (λ e. IsTrue (is_element self.old e)) breaks.now }
        requires point { length x.old ≡ unknown_count self.old }
        ensures answer { result ≡ settled_answer (settle self.old options.now frame.now t set breaks.now x.old) }
        ensures point { x.new ≡ settled_value x.old (settle self.old options.now frame.now t set breaks.now x.old) }
        ensures length { length x.new ≡ unknown_count self.old }
        ensures design { self.new ≡ self.old }
    {
        settled(self.find_solution(options, frame, t, set, breaks, x))
    }

    /// The branch of each simultaneous if and case statement. Where a condition has a fault, `out` stays.
    pub fn choose(
        &mut self,
        frame: &Frame,
        t: Tick,
        kind: ChooseKind,
        x: &Point,
        out: &mut Choices,
    ) -> Settled
        requires frame { IsFrame self.old frame.now }
        requires point { length x.now ≡ unknown_count self.old }
        requires room { length out.old ≡ length (selections_of self.old.equations) }
        ensures answer { result ≡ settled_answer (choose self.old frame.now t kind x.now) }
        ensures branches { out.new ≡ settled_value out.old (choose self.old frame.now t kind x.now) }
        ensures length { length out.new ≡ length (selections_of self.old.equations) }
        ensures design { self.new ≡ self.old }
    {
        let branches = self.branches.as_mut_slice();
        let chosen = self.system.choose(frame, t, kind, x, branches);
        if chosen.is_ok() {
            copy_branches(self.branches.as_slice(), out);
        }
        settled(chosen)
    }
}
