//! What a machine decides without a work.

ghost use Rattle.std.specs.Prelude.{◌≡◌};
ghost use Rattle.run_place.specs.declared.place.Stage.TheVariants as stages;
ghost use Rattle.mixed_cycle.specs.Machine.{Sound, Decides};
ghost use Rattle.mixed_cycle.specs.Making.{Readies};

use crate::machine::Machine;
use run_place::Stage;
use step_model::{Design, Kernel, Stepper};

impl<D: Design, S: Stepper<D>, K: Kernel<D>> Machine<D, S, K> {
    /// What follows at a place.
    fn decide_place(&mut self)
        requires sound { Sound (D.system 0) S.part K.state self.old }
        requires stage { self.old.place.stage ≡ stages.Placed }
        ensures { Decides (D.system 0) S.part S.count K.state self.old self.new }
    {
        let next = self.kernel.next_time();
        self.place
            .decide_place(&next, &self.frame, self.options.stop);
    }

    /// In a phase: the arrival, or a step.
    fn decide_phase(&mut self)
        requires sound { Sound (D.system 0) S.part K.state self.old }
        requires stage { self.old.place.stage ≡ stages.InPhase }
        ensures { Decides (D.system 0) S.part S.count K.state self.old self.new }
    {
        let next = self.kernel.next_time();
        self.place.decide_phase(&next, self.options.stop);
    }

    /// A delta is solved first, or its cycle comes.
    fn decide_delta(&mut self, to_time: bool)
        requires sound { Sound (D.system 0) S.part K.state self.old }
        requires stage { self.old.place.stage ≡ stages.InDelta to_time }
        ensures { Decides (D.system 0) S.part S.count K.state self.old self.new }
    {
        self.place.decide_delta(to_time, &self.frame);
    }

    /// In a search: the crossing where the bounds are near enough, or a probe.
    fn decide_search(&mut self)
        requires sound { Sound (D.system 0) S.part K.state self.old }
        requires stage { self.old.place.stage ≡ stages.InSearch }
        ensures { Decides (D.system 0) S.part S.count K.state self.old self.new }
    {
        let is_chosen = self.choose_step();
        self.place.decide_search(is_chosen, &self.branches);
    }

    /// A decision, where one is to be made.
    fn decide(&mut self)
        requires { Sound (D.system 0) S.part K.state self.old }
        ensures { Decides (D.system 0) S.part S.count K.state self.old self.new }
    {
        match self.place.stage {
            Stage::Placed => self.decide_place(),
            Stage::InDelta { to_time } => self.decide_delta(to_time),
            Stage::InPhase => self.decide_phase(),
            Stage::InSearch => self.decide_search(),
            Stage::Unstarted | Stage::InCycle { .. } | Stage::Finished(_) => {}
        }
    }

    /// All decisions: at most three come one behind the other.
    pub(crate) fn make_ready(&mut self)
        requires { Sound (D.system 0) S.part K.state self.old }
        ensures { Readies (D.system 0) S.part S.count K.state self.old self.new }
    {
        self.decide();
        self.decide();
        self.decide();
    }
}
