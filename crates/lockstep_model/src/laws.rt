//! What the definitions of a run promise. Each law is proved, and does nothing when it runs.

ghost use Rattle.std.specs.Prelude.{◌≡◌, ◌≢◌, ℕ, suc, ◌+◌, ◌-◌, ◌≤◌, ◌<◌, true, false, ℤ, List, Result};
ghost use Rattle.ams_value.specs.declared.val.Val.{Val};
ghost use Rattle.step_data.specs.declared.tip.Tip.{Tip};
ghost use Rattle.step_data.specs.declared.tip.Attempt.{Attempt};
ghost use Rattle.step_data.specs.declared.breaks.ThresholdState.{ThresholdState};
ghost use Rattle.step_data.specs.declared.outcome.Cause.{Cause};
ghost use Rattle.step_data.specs.Options.{IsAllowed};
ghost use Rattle.step_data.specs.Steps.{stream};
ghost use Rattle.step_model.specs.System.{System, Landing};
ghost use Rattle.lockstep_model.specs.Works.{Run, cycles_in, tries_in, attempts_in};
ghost use Rattle.lockstep_model.specs.Crossing.{Bounds, located, location, is_near, middle};
ghost use Rattle.lockstep_model.specs.CrossingLaws.{LiesWithin, CrossesAt, GivesUp, search};
ghost use Rattle.lockstep_model.specs.Lockstep.{lockstep, locate, first_standing, until, side_step, is_there, ends_in_time, point_events};
ghost use Rattle.step_model.specs.Printing.{CanPrint};
ghost use Rattle.step_model.specs.Answers.{IsStep};
ghost use Rattle.step_model.specs.StepLaws.{HasStep};
ghost use Rattle.lockstep_model.specs.Continuing.{Continues, StepsFit};
ghost use Rattle.lockstep_model.specs.LookLaws.{most_moves};
ghost use Rattle.lockstep_model.specs.RunStates.{RunState};
ghost use Rattle.lockstep_model.specs.Rising.{RisesAbove, step_times};
ghost use Rattle.lockstep_model.specs.Solutions.{AreSolved};
ghost use Rattle.lockstep_model.specs.StreamLaws.{Extends};
ghost use Rattle.lockstep_model.specs.Walk.{Walk, Reply, Broken, Keeps, Costs, Begins, LooksAhead, Fits, moved, first_walk, walk_after, looks_over, unlooked, moves_left};

/// The first attempts begin every longer list of attempts.
#[tactic(auto, using(crate::specs::StreamLaws::stream_extends))]
pub fn streams_extend()
    ensures { (attempt : Tip → Attempt) (tip : Tip) (n : ℕ) → Extends (stream attempt tip n) (stream attempt tip (suc n)) }
{}

/// The search of a crossing ends later than its lower bound and not past its upper one.
#[tactic(auto, using(crate::specs::CrossingLaws::located_within))]
pub fn crossings_lie_within()
    ensures { (xres : ℕ) (step : ℕ → Result Landing Cause) (thresholds : List ThresholdState) (n : ℕ) (b : Bounds) →
        1 ≤ xres → b.lo < b.hi → LiesWithin b (located xres step thresholds n b) }
{}

/// As many turns as the distance of the bounds are enough, so the bounds of a location are near.
#[tactic(auto, using(crate::specs::CrossingLaws::location_near))]
pub fn crossings_are_located()
    ensures { (xres : ℕ) (step : ℕ → Result Landing Cause) (thresholds : List ThresholdState) (b : Bounds) →
        1 ≤ xres → is_near xres (location xres step thresholds b) ≡ true }
{}

/// A search whose bounds are near ends at the location, however many turns it had.
#[tactic(auto, using(crate::specs::CrossingLaws::located_is))]
pub fn searches_end_at_the_location()
    ensures { (xres : ℕ) (step : ℕ → Result Landing Cause) (thresholds : List ThresholdState) (n : ℕ) (b : Bounds) →
        1 ≤ xres → is_near xres (located xres step thresholds n b) ≡ true →
        located xres step thresholds n b ≡ location xres step thresholds b }
{}

/// Where the tries suffice, a run makes a probe for each turn and crosses where the search ends.
#[tactic(auto, using(crate::specs::CrossingLaws::locate_crosses))]
pub fn runs_cross_where_the_search_ends()
    ensures { (sys : System) (cross : ℕ → RunState → Run) (n : ℕ) (p : RunState) (b : Bounds) →
        is_near sys.options.xres (search sys p n b) ≡ true →
        CrossesAt sys cross p (search sys p n b) n (locate sys cross n p b) }
{}

/// Where they don't, it makes a probe for each try and ends.
#[tactic(auto, using(crate::specs::CrossingLaws::locate_gives_up))]
pub fn searches_end_where_tries_do()
    ensures { (sys : System) (cross : ℕ → RunState → Run) (n : ℕ) (p : RunState) (b : Bounds) →
        is_near sys.options.xres (search sys p n b) ≡ false → GivesUp p n (locate sys cross n p b) }
{}

/// Each work of a run begins with the tip and the frame that the one before left, and an attempt is made from these.
#[tactic(auto, using(crate::specs::Continuing::lockstep_continues))]
pub fn works_begin_where_the_last_left()
    ensures { (sys : System) → IsAllowed sys.options →
        Continues sys (first_standing sys) (lockstep sys).works (lockstep sys).states }
{}

/// With allowed options the step of each tip of a run lies from one tick to 10^12.
#[tactic(auto, using(crate::specs::Continuing::lockstep_steps))]
pub fn steps_of_a_run_fit()
    ensures { (sys : System) → IsAllowed sys.options → StepsFit (lockstep sys).states }
{}

/// With allowed options a side step, and the step of a probe, lies from one tick to 10^12.
#[tactic(auto, using(crate::specs::StepSizes::side_step_fits, crate::specs::StepSizes::probe_fits))]
pub fn side_steps_and_probes_fit()
    ensures side { (sys : System) (p : RunState) → IsAllowed sys.options → HasStep sys.options p.tip.h → p.tip.t ≤ until sys p →
        is_there sys p ≡ false → ends_in_time sys p ≡ false → IsStep (side_step sys p) }
    ensures probe { (sys : System) (p : RunState) (b : Bounds) → IsAllowed sys.options → p.tip.t ≤ b.lo → IsStep (b.hi - p.tip.t) →
        is_near sys.options.xres b ≡ false → IsStep (middle b - p.tip.t) }
{}

/// A run has no more cycles, and no more attempts, side steps and probes together, than its budgets.
#[tactic(auto, using(crate::specs::Budgets::lockstep_within))]
pub fn runs_stay_within_their_budgets()
    ensures cycles { (sys : System) → cycles_in (lockstep sys).works ≤ sys.cycles }
    ensures tries { (sys : System) → tries_in (lockstep sys).works ≤ sys.tries }
{}

/// The points that attempts, side steps and probes give lie later and later.
#[tactic(auto, using(crate::specs::Rising::lockstep_rises))]
pub fn points_rise()
    ensures { (sys : System) → IsAllowed sys.options → RisesAbove 0 (step_times (lockstep sys).works) }
{}

/// Whatever is replied, the events of a run go on, its end stays, and what a move asks is awaited then.
#[tactic(auto, using(crate::specs::WalkLaws::moved_keeps))]
pub fn moves_keep_the_run()
    ensures { (w : Walk) (reply : Reply) → Keeps w (moved w reply) }
{}

/// Each attempt is found once or made once, and the moves come to an end.
#[tactic(auto, using(crate::specs::WalkLaws::moved_costs))]
pub fn moves_come_to_an_end()
    ensures { (attempt : List Val → Tip → Attempt) (w : Walk) (reply : Reply) →
        LooksAhead w.awaited w.works → w.awaited ≢ Broken → Fits attempt w w.awaited reply → Costs w reply (moved w reply) }
{}

/// There is a begin for each work that renews, and at most one more for each own attempt.
#[tactic(auto, using(crate::specs::WalkLaws::moved_begins))]
pub fn begins_are_few()
    ensures { (attempt : List Val → Tip → Attempt) (w : Walk) (reply : Reply) →
        LooksAhead w.awaited w.works → w.awaited ≢ Broken → Fits attempt w w.awaited reply → Begins w reply (moved w reply) }
{}

/// Whatever is replied, each attempt of a run is looked for exactly once.
#[tactic(auto, using(crate::specs::LookLaws::runs_look))]
pub fn attempts_are_looked_for_once()
    ensures { (sys : System) (replies : List Reply) →
        looks_over replies (first_walk sys) + unlooked (walk_after replies (first_walk sys)) ≡ attempts_in (lockstep sys).works }
{}

/// The moves to the end are at most 2, one for each cycle, solution, side step and probe, and 3 for each attempt.
#[tactic(auto, using(crate::specs::LookLaws::moves_of_run))]
pub fn moves_are_few()
    ensures { (sys : System) → moves_left (first_walk sys) ≡ most_moves (lockstep sys).works }
{}

/// The events of points can be printed.
#[tactic(auto, using(crate::specs::Printing::points_print))]
pub fn points_can_be_printed()
    ensures { (sys : System) (t n : ℕ) (x : List ℤ) (branches olds : List ℕ) → CanPrint sys (point_events t n x branches olds) }
{}

/// Each point that a run gives is the solution of the state in which the work begins, or of an accepted step from its tip.
#[tactic(auto, using(crate::specs::Solutions::lockstep_solves))]
pub fn points_are_solutions()
    ensures { (sys : System) → AreSolved sys (lockstep sys).works (lockstep sys).states }
{}
