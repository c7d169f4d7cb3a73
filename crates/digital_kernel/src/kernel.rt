//! The kernel as whoever cycles it sees it.
ghost use Rattle.std.specs.Prelude.{◌≡◌, IfOk};
ghost use Rattle.design_rules.specs.Design.{IsDesign};
ghost use Rattle.step_model.specs.declared.kernel_stage.KernelStage.TheVariants.{Unstarted};
ghost use Rattle.digital_kernel.specs.Runs.{RunsAs};

use crate::ending::stage_left;
use crate::moving;
use first_frame::fill_first_frame;
use fix_core::Tick;
use flat_design::Flat;
use frame_values::{fill_frame, frames_are_filled};
use kernel_state::KernelParts;
use next_cycle::next_time;
use run_types::{events_can_be_printed, states_stay_safe, worlds_have_values_of_their_types};
use std::alloc::{AllocError, Global};
use std::marker::{Model, PhantomData};
use step_data::{BreakList, EventList, Frame, Point, Ran, ThresholdList};
use step_model::{Design, Kernel, KernelStage};

/// The digital side of a flat design, which is part 0 of the named design. Contracts see its stage and the state between cycles.
#[derive(Drop)]
pub struct DigitalKernel<'a, D: Design> {
    alloc: Global,
    parts: KernelParts<'a>,
    stage: KernelStage,
    /// No element, which is lent where no cycle has run.
    none: BreakList,
    design: PhantomData<D>,
}

impl<'a, D: Design> Model for DigitalKernel<'a, D> {
    ghost use Rattle.step_model.specs.Kernel.{KernelState};
    ghost use Rattle.kernel_state.specs.State.{state_of};
    ghost use Rattle.digital_kernel.specs.Runs.{IsKernel};

    ghost Value = { KernelState };

    ghost view = { λ a. record { stage = a.stage; digital = state_of a.parts } };

    ghost invariant = { λ a. IsKernel (D.system 0) a.parts a.stage a.none };
}

impl<'a, D: Design> DigitalKernel<'a, D> {
    /// The kernel of a design before its start.
    pub fn new(alloc: Global, flat: &'a Flat) -> Result<DigitalKernel<'a, D>, AllocError>
        requires design { IsDesign flat.now }
        requires system { RunsAs (D.system 0) flat.now }
        ensures { IfOk result (λ kernel. kernel.stage ≡ Unstarted) }
    {
        let parts = KernelParts::new(alloc, flat)?;
        let none = BreakList::new(alloc);
        Ok(DigitalKernel {
            alloc,
            parts,
            stage: KernelStage::Unstarted,
            none,
            design: PhantomData,
        })
    }
}

impl<'a, D: Design> Kernel<D> for DigitalKernel<'a, D> {
    ghost state = { λ state. state };

    fn start(&mut self, x: &Point, out: &mut EventList) -> Result<Ran, AllocError> {
        events_can_be_printed();
        let ran = moving::start(self.alloc, &mut self.parts, x, out);
        self.stage = stage_left(&ran);
        ran
    }

    fn cycle(
        &mut self,
        t: Tick,
        n: u32,
        x: &Point,
        to_time: bool,
        out: &mut EventList,
    ) -> Result<Ran, AllocError> {
        match self.stage {
            KernelStage::Going => {
                events_can_be_printed();
                let ran = moving::cycle(self.alloc, &mut self.parts, t, n, x, to_time, out);
                self.stage = stage_left(&ran);
                ran
            }
            KernelStage::Ended(refusal) => Ok(Ran::Refused(refusal)),
            KernelStage::Lost => Err(AllocError),
            KernelStage::Unstarted => Err(AllocError),
        }
    }

    fn next_time(&self) -> Option<Tick> {
        states_stay_safe();
        next_time(self.parts.world.drivers(), &self.parts.timeouts)
    }

    fn frame(&self, out: &mut Frame) {
        worlds_have_values_of_their_types();
        frames_are_filled();
        match self.stage {
            KernelStage::Going => fill_frame(
                self.parts.world.flat().frame(),
                self.parts.world.signal_values(),
                self.parts.world.threshold_list().as_slice(),
                self.parts.world.is_timed(),
                out,
            ),
            _ => fill_first_frame(self.parts.world.flat(), out),
        }
    }

    fn breaks(&self) -> &BreakList {
        match self.stage {
            KernelStage::Going => self.parts.world.break_list(),
            _ => &self.none,
        }
    }

    fn thresholds(&self) -> &ThresholdList {
        self.parts.world.threshold_list()
    }
}
