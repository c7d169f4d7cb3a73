//! What the events of a run promise of its points.
ghost use Rattle.std.specs.Prelude.{◌++◌, ℕ, List};
ghost use Rattle.flat_design.specs.declared.objects.Objects.{Objects};
ghost use Rattle.step_data.specs.declared.event.Event.{Event};
ghost use Rattle.step_data.specs.declared.outcome.Options.{Options};
ghost use Rattle.system_model.specs.Trace.{trace};
ghost use Rattle.point_laws.specs.Points.{EventsMeet, PointsMeet, RunMeets, TextMeets};

use design_meaning::solutions_are_within_tolerance;

/// Each point of a run meets the equations outside choices, those of the branches that were named last, the sums of the nodes
/// and the across differences, with the signals, thresholds and DOMAIN that were told before it (IEEE 1076.1, equation sets).
/// With the state in which its work begins, it meets the whole set by which it was found, break elements and augmentation too.
pub fn points_meet_their_equations()
    ensures events { (objects : Objects) (options : Options) → PointsMeet objects options }
    ensures text { (objects : Objects) (top : List ℕ) (options : Options) → TextMeets objects top options (trace objects top options) }
    ensures works { (objects : Objects) (options : Options) → RunMeets objects options }
{
    solutions_are_within_tolerance();
}

/// So does each point of a front of the events, as a trace that was cut off has them.
#[tactic(auto, using(crate::proofs::Meeting::fronts_meet))]
pub fn fronts_meet_their_equations()
    ensures { (objects : Objects) (options : Options) (some more : List Event) →
        EventsMeet objects options (some ++ more) → EventsMeet objects options some }
{}
