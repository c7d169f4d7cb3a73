//! The mixed cycle: where the engine stands within a run, and what it does next. The functions here are laws.
#![tactic(auto)]

ghost use Rattle.std.specs.Prelude.{◌≡◌, ◌≢◌, List};
ghost use Rattle.ams_value.specs.declared.val.Val.{Val};
ghost use Rattle.step_data.specs.declared.tip.Tip.{Tip};
ghost use Rattle.step_data.specs.declared.tip.Attempt.{Attempt};
ghost use Rattle.step_data.specs.declared.outcome.End.{End};
ghost use Rattle.step_model.specs.System.{System};
ghost use Rattle.lockstep_model.specs.declared.moves.Moved.TheVariants.{Ended};
ghost use Rattle.lockstep_model.specs.Lockstep.{lockstep};
ghost use Rattle.cycle_machine.specs.Held.{Held, rest_of, run_of, next_of, first_held};
ghost use Rattle.cycle_machine.specs.Ready.{ready, IsReady};
ghost use Rattle.cycle_machine.specs.Moves.{Moment, walk_of, move_of, moving, first_moment, IsAhead};
ghost use Rattle.lockstep_model.specs.Walk.{Reply, Broken, Fits, Keeps, Costs, Begins, LooksAhead, first_walk, moved};
ghost use Rattle.cycle_machine.specs.RunLaws.{ends_with};

/// Before the start the whole run is left. It is proved, and does nothing when it runs.
pub fn all_is_left()
    ensures { (sys : System) → rest_of sys (first_held sys) ≡ lockstep sys }
{}

/// What comes next is the next thing of the run that is left: a decision leaves the run as it is, and a work is its first
/// one, behind which the rest is left. It is proved, and does nothing when it runs.
pub fn next_goes_on()
    ensures { (sys : System) (held : Held) → rest_of sys held ≡ run_of sys (next_of sys held) }
{}

/// Decisions are made at once, at most three of them: the run stays, and a work comes next or the run has ended. It is
/// proved, and does nothing when it runs.
pub fn decisions_are_few()
    ensures run { (sys : System) (held : Held) → rest_of sys (ready sys held) ≡ rest_of sys held }
    ensures ready { (sys : System) (held : Held) → IsReady (next_of sys (ready sys held)) }
{}

/// Before the start the engine stands for the walk of the whole run. It is proved, and does nothing when it runs.
pub fn first_moment_walks_all()
    ensures { (sys : System) → walk_of sys (first_moment sys) ≡ first_walk sys }
{}

/// Whatever is replied, a move of the engine is the move of the walk that it stands for. It is proved, and does nothing
/// when it runs.
pub fn moves_walk()
    ensures walk { (sys : System) (m : Moment) (reply : Reply) → IsAhead sys m → move_of sys (moving sys m reply) ≡ moved (walk_of sys m) reply }
    ensures ahead { (sys : System) (m : Moment) (reply : Reply) → IsAhead sys (moving sys m reply).moment }
    ensures looks { (sys : System) (m : Moment) → IsAhead sys m → LooksAhead m.awaited (walk_of sys m).works }
{}

/// A move keeps the run, and spends what the walk's does: the events go on and the end stays; an attempt is found or its
/// own, and the moves come to an end; begins are few. It is proved, and does nothing when it runs.
pub fn moves_keep_the_run()
    ensures keeps { (sys : System) (m : Moment) (reply : Reply) → IsAhead sys m → Keeps (walk_of sys m) (move_of sys (moving sys m reply)) }
    ensures costs { (attempt : List Val → Tip → Attempt) (sys : System) (m : Moment) (reply : Reply) →
        IsAhead sys m → m.awaited ≢ Broken → Fits attempt (walk_of sys m) m.awaited reply → Costs (walk_of sys m) reply (move_of sys (moving sys m reply)) }
    ensures begins { (attempt : List Val → Tip → Attempt) (sys : System) (m : Moment) (reply : Reply) →
        IsAhead sys m → m.awaited ≢ Broken → Fits attempt (walk_of sys m) m.awaited reply → Begins (walk_of sys m) reply (move_of sys (moving sys m reply)) }
{}

/// Once the end was told, every later move tells it again and changes nothing. It is proved, and does nothing when it runs.
pub fn ends_stay()
    ensures { (sys : System) (m : Moment) (reply later : Reply) (e : End) →
        (moving sys m reply).says ≡ Ended e → moving sys (moving sys m reply).moment later ≡ ends_with e (moving sys m reply).moment }
{}
