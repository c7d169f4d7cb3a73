//! A set as Newton's method asks for it.
ghost use Rattle.std.specs.Prelude.{IsTrue};
ghost use Rattle.std.specs.List.{list_all};
ghost use Rattle.flat_design.specs.Reads.{frame_of};
ghost use Rattle.system_model.specs.System.{are_values_of, is_element};
ghost use Rattle.equation_system.specs.Tests.{are_branches, has_step};

use crate::system::EquationSystem;
use ams_point::Point;
use augmentation_rows::Augmentation;
use design_meaning::EvalFault;
use fix_core::{Fix, Tick};
use newton_rounds::EquationSet;
use sparse_rows::SparseRows;
use step_data::{ChooseKind, Element, Frame};

/// A set of a design under a frame at a time, with its break elements, the branches that were chosen, and the greatest
/// residual of a solution in units of 10^-12.
#[derive(Clone, Copy)]
pub struct PosedSet<'s> {
    pub system: &'s EquationSystem<'s>,
    pub frame: &'s Frame,
    pub kind: ChooseKind,
    pub time: Tick,
    pub set: &'s Augmentation<'s>,
    pub elements: &'s [Element],
    pub branches: &'s [u32],
    pub tolerance: u64,
    pub ghost frame_fits: { IsTrue (are_values_of system.now (frame_of system.now) frame.now) },
    pub ghost are_branches: { IsTrue (are_branches system.now.equations branches.now) },
    pub ghost are_elements: { IsTrue (list_all (is_element system.now) elements.now) },
    pub ghost has_step: { IsTrue (has_step set.now) },
}

impl<'s> PosedSet<'s> {
    ghost use Rattle.std.specs.Prelude.{◌≡◌};
    ghost use Rattle.std.specs.List.{All};
    ghost use Rattle.design_rules.specs.Rows.{AreBranches};
    ghost use Rattle.equation_values.specs.Evaluable.{IsFrame};
    ghost use Rattle.augmentation_rows.specs.Sets.{set_by, HasStep};
    ghost use Rattle.equation_system.specs.Posed.{problem_by, problem_of};

    /// A set with its break elements and branches, under a frame at a time.
    pub fn new(
        system: &'s EquationSystem<'s>,
        frame: &'s Frame,
        kind: ChooseKind,
        time: Tick,
        set: &'s Augmentation<'s>,
        elements: &'s [Element],
        branches: &'s [u32],
        tolerance: u64,
    ) -> PosedSet<'s>
        requires frame { IsFrame system.now frame.now }
        requires branches { AreBranches system.now.equations branches.now }
        requires elements { All (λ e. IsTrue (is_element system.now e)) elements.now }
        requires step { HasStep set.now }
        ensures { problem_of result ≡ problem_by system.now frame.now kind time (set_by set.now) elements.now branches.now tolerance }
    {
        PosedSet {
            system,
            frame,
            kind,
            time,
            set,
            elements,
            branches,
            tolerance,
        }
    }
}

impl EquationSet for PosedSet<'_> {
    ghost use Rattle.equation_system.specs.Posed.{problem_of};

    ghost problem = { problem_of };

    fn tolerance(&self) -> u64 {
        self.tolerance
    }

    fn fill(&self, x: &Point, rows: &mut SparseRows) -> Result<(), EvalFault> {
        let values = self.system.values(self.frame, self.kind, self.time, x);
        self.system
            .fill(self.set, self.elements, self.branches, &values, rows)
    }

    fn residuals(&self, x: &Point, out: &mut [Fix]) -> Result<(), EvalFault> {
        let values = self.system.values(self.frame, self.kind, self.time, x);
        self.system
            .write_residuals(self.set, self.elements, self.branches, &values, out)
    }
}
